// A module as it is lent to a call.
#![tactic(auto)]

// Its keys, its control record, its array and its cache.
#[derive(Drop)]
pub struct Lent<'a> {
    pub keys: &'a [u8],
    pub control: &'a mut [u8],
    pub array: &'a mut [u8],
    pub cache: &'a mut [u8],
}
