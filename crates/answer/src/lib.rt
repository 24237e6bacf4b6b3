// What a call answers, and what the C side is told of it.
#![tactic(auto)]

ghost use Rattle.std.specs.Prelude.{◌≡◌};
ghost use Rattle.answer.specs.declared.Answer.TheVariants.{Refused};
ghost use Rattle.answer.specs.Refusal.{number_of};

#[derive(Clone, Copy)]
pub enum Answer {
    Done {
        stores: u64,
        sum: u64,
    },
    Blank {
        stores: u64,
    },
    Cut {
        stores: u64,
    },
    Refused {
        number: u64,
        stores: u64,
        first: u64,
        second: u64,
    },
}

// Why a call is refused: the number of each is what the answer tells.
#[derive(Clone, Copy, Debug, PartialEq, Eq)]
pub enum Refusal {
    BadDepth = 1,
    BadKeysLength = 2,
    BadControlLength = 3,
    BadArrayLength = 4,
    BadCacheLength = 5,
    BadLine = 6,
    BadBufferLength = 7,
    BadControl = 21,
    Pending = 22,
    BadCache = 23,
    BadNode = 24,
    BadData = 25,
    Worn = 26,
    BadShadow = 27,
    BadPhase = 28,
    BadRoot = 29,
    OpenPage = 30,
    WornPage = 31,
    BadCounter = 32,
    NoCounter = 33,
    SeveralCounters = 34,
}

// A refusal after some stores, with the two numbers of its place.
pub fn refuse_after(stores: u64, number: u64, first: u64, second: u64) -> Answer
    ensures { result ≡ Refused number stores first second }
{
    Answer::Refused {
        number,
        stores,
        first,
        second,
    }
}

// A refusal before any store.
pub fn refuse(number: u64, first: u64, second: u64) -> Answer
    ensures { result ≡ Refused number 0 first second }
{
    refuse_after(0, number, first, second)
}

impl Refusal {
    pub fn number(self) -> u64
        ensures { result ≡ number_of self }
    {
        self as u64
    }

    // The refusal before any store, with the two numbers of its place.
    pub fn at(self, first: u64, second: u64) -> Answer
        ensures { result ≡ Refused (number_of self) 0 first second }
    {
        refuse(self.number(), first, second)
    }

    // The refusal after some stores.
    pub fn after(self, stores: u64, first: u64, second: u64) -> Answer
        ensures { result ≡ Refused (number_of self) stores first second }
    {
        refuse_after(stores, self.number(), first, second)
    }
}

// A refusal before any store, without a place.
impl From<Refusal> for Answer {
    ghost from_gives = { λ r a. a ≡ Refused (number_of r) 0 0 0 };

    fn from(refusal: Refusal) -> Answer {
        refusal.at(0, 0)
    }
}
