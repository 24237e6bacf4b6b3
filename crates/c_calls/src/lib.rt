// The calls for C: include/nightvelvet.h. A slice is a pointer and a length in C.
#![tactic(auto)]

ghost use Rattle.std.specs.Prelude.{◌≡◌};
ghost use Rattle.calls.specs.Call.{buffers};
ghost use Rattle.calls.specs.Read.{read as read_of};
ghost use Rattle.calls.specs.Write.{write as write_of};
ghost use Rattle.calls.specs.Turn.{turn as turn_of};
ghost use Rattle.calls.specs.Recovery.{recover as recover_of};
ghost use Rattle.calls.specs.Format.{format as format_of};
ghost use Rattle.calls.specs.DirtyPages.{dirty_pages};
ghost use Rattle.calls.specs.ForC.{code_for_c, buffer_for_c, left_for_c};

use c_numbers::tell;

// The code for a buffer of another length than 24.
const BAD_NUMBERS: u32 = 107;

#[unsafe(no_mangle)]
pub extern "C" fn nv_format(
    depth: u64,
    family: u64,
    keys: &[u8],
    control: &mut [u8],
    array: &mut [u8],
    cache: &mut [u8],
    numbers: &mut [u8],
) -> u32
    ensures value { result ≡ code_for_c numbers.old (format_of keys.now depth family
        (buffers array.old control.old cache.old)).answer }
    ensures numbers_after { numbers.new ≡ buffer_for_c numbers.old (format_of keys.now depth family
        (buffers array.old control.old cache.old)).answer }
    ensures cache_after { buffers array.new control.new cache.new
        ≡ left_for_c numbers.old (buffers array.old control.old cache.old)
        (format_of keys.now depth family (buffers array.old control.old cache.old)).after }
{
    if numbers.len() != 24 {
        return BAD_NUMBERS;
    }
    let answer = format::format(depth, family, keys, control, array, cache);
    tell(answer, numbers)
}

#[unsafe(no_mangle)]
pub extern "C" fn nv_read(
    keys: &[u8],
    control: &mut [u8],
    array: &mut [u8],
    cache: &mut [u8],
    line: u64,
    out: &mut [u8],
    allowance: u64,
    numbers: &mut [u8],
) -> u32
    ensures value { result ≡ code_for_c numbers.old (read_of keys.now line allowance out.old
        (buffers array.old control.old cache.old)).called.answer }
    ensures numbers_after { numbers.new ≡ buffer_for_c numbers.old (read_of keys.now line allowance out.old
        (buffers array.old control.old cache.old)).called.answer }
    ensures cache_after { buffers array.new control.new cache.new
        ≡ left_for_c numbers.old (buffers array.old control.old cache.old)
        (read_of keys.now line allowance out.old
        (buffers array.old control.old cache.old)).called.after }
    ensures out_after { out.new ≡ left_for_c numbers.old out.old
        (read_of keys.now line allowance out.old
        (buffers array.old control.old cache.old)).output }
{
    if numbers.len() != 24 {
        return BAD_NUMBERS;
    }
    let answer = read::read(keys, control, array, cache, line, out, allowance);
    tell(answer, numbers)
}

#[unsafe(no_mangle)]
pub extern "C" fn nv_write(
    keys: &[u8],
    control: &mut [u8],
    array: &mut [u8],
    cache: &mut [u8],
    line: u64,
    text: &[u8],
    allowance: u64,
    numbers: &mut [u8],
) -> u32
    ensures value { result ≡ code_for_c numbers.old (write_of keys.now line text.now allowance
        (buffers array.old control.old cache.old)).answer }
    ensures numbers_after { numbers.new ≡ buffer_for_c numbers.old
        (write_of keys.now line text.now allowance
        (buffers array.old control.old cache.old)).answer }
    ensures cache_after { buffers array.new control.new cache.new
        ≡ left_for_c numbers.old (buffers array.old control.old cache.old)
        (write_of keys.now line text.now allowance
        (buffers array.old control.old cache.old)).after }
{
    if numbers.len() != 24 {
        return BAD_NUMBERS;
    }
    let answer = write::write(keys, control, array, cache, line, text, allowance);
    tell(answer, numbers)
}

#[unsafe(no_mangle)]
pub extern "C" fn nv_turn(
    keys: &[u8],
    control: &mut [u8],
    array: &mut [u8],
    cache: &mut [u8],
    page: u64,
    allowance: u64,
    numbers: &mut [u8],
) -> u32
    ensures value { result ≡ code_for_c numbers.old (turn_of keys.now page allowance
        (buffers array.old control.old cache.old)).answer }
    ensures numbers_after { numbers.new ≡ buffer_for_c numbers.old (turn_of keys.now page allowance
        (buffers array.old control.old cache.old)).answer }
    ensures cache_after { buffers array.new control.new cache.new
        ≡ left_for_c numbers.old (buffers array.old control.old cache.old)
        (turn_of keys.now page allowance
        (buffers array.old control.old cache.old)).after }
{
    if numbers.len() != 24 {
        return BAD_NUMBERS;
    }
    let answer = turn::turn(keys, control, array, cache, page, allowance);
    tell(answer, numbers)
}

#[unsafe(no_mangle)]
pub extern "C" fn nv_recover(
    keys: &[u8],
    control: &mut [u8],
    array: &mut [u8],
    cache: &mut [u8],
    allowance: u64,
    numbers: &mut [u8],
) -> u32
    ensures value { result ≡ code_for_c numbers.old (recover_of keys.now allowance
        (buffers array.old control.old cache.old)).answer }
    ensures numbers_after { numbers.new ≡ buffer_for_c numbers.old (recover_of keys.now allowance
        (buffers array.old control.old cache.old)).answer }
    ensures cache_after { buffers array.new control.new cache.new
        ≡ left_for_c numbers.old (buffers array.old control.old cache.old)
        (recover_of keys.now allowance (buffers array.old control.old cache.old)).after }
{
    if numbers.len() != 24 {
        return BAD_NUMBERS;
    }
    let answer = recovery::recover(keys, control, array, cache, allowance);
    tell(answer, numbers)
}

#[unsafe(no_mangle)]
pub extern "C" fn nv_dirty_pages(
    control: &[u8],
    cache: &[u8],
    list: &mut [u8],
    numbers: &mut [u8],
) -> u32
    ensures value { result ≡ code_for_c numbers.old
        (dirty_pages control.now cache.now list.old).answer }
    ensures numbers_after { numbers.new ≡ buffer_for_c numbers.old
        (dirty_pages control.now cache.now list.old).answer }
    ensures list_after { list.new ≡ left_for_c numbers.old list.old
        (dirty_pages control.now cache.now list.old).output }
{
    if numbers.len() != 24 {
        return BAD_NUMBERS;
    }
    let listed = dirty_pages::dirty_pages(control, cache, list);
    tell(listed, numbers)
}
