// The numbers of an answer, as C gets them: three words in a buffer, and a code.
#![tactic(auto)]

ghost use Rattle.std.specs.Prelude.{◌≡◌, [], ◌∷◌, ◌<◌, length};
ghost use Rattle.words.specs.Bytes.{bytes_of};
ghost use Rattle.answer.specs.Answer.{code_of, values_of};

use answer::Answer;
use words::Word;

// Writes three numbers.
fn put_numbers(numbers: &mut [u8], stores: u64, first: u64, second: u64)
    requires { length numbers.old ≡ 24 }
    ensures { numbers.new ≡ bytes_of 8 (stores ∷ first ∷ second ∷ []) }
{
    u64::store(numbers, 0, stores);
    u64::store(numbers, 8, first);
    u64::store(numbers, 16, second);
}

// Writes the numbers of an answer, and gives its code.
pub fn tell(answer: Answer, numbers: &mut [u8]) -> u32
    requires { (length numbers.old ≡ 24) × (code_of answer < 200) }
    ensures value { result ≡ code_of answer }
    ensures numbers_after { numbers.new ≡ bytes_of 8 (values_of answer) }
{
    match answer {
        Answer::Done { stores, sum } => {
            put_numbers(numbers, stores, sum, 0);
            0
        }
        Answer::Blank { stores } => {
            put_numbers(numbers, stores, 0, 0);
            1
        }
        Answer::Cut { stores } => {
            put_numbers(numbers, stores, 0, 0);
            2
        }
        Answer::Refused {
            number,
            stores,
            first,
            second,
        } => {
            put_numbers(numbers, stores, first, second);
            100 + number as u32
        }
    }
}
