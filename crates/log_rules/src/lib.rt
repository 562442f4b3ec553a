// The rules of what is done with logs alone: definitions, laws and promises in specs/, and what a call returns; no function.
#![tactic(auto)]

// What the replay returns: number 0, the bytes of the log of what was stored, words sent, items lost and words held; or a refusal's
// number and place. `second` is 0 in every answer.
#[repr(C)]
#[derive(Clone, Copy)]
pub struct Replayed {
    pub number: u32,
    pub place: u64,
    pub second: u64,
    pub bytes: u64,
    pub sent: u64,
    pub lost: u64,
    pub held: u64,
}
