// The rules of salvage, K10: definitions, laws and promises in specs/, and what a call returns; no function.
#![tactic(auto)]

// What a salvage returns: number 0, and how many bytes of log, frame times and report entries it wrote; or a refusal's number and
// place. `second` is 0 in every answer.
#[repr(C)]
#[derive(Clone, Copy)]
pub struct Salvaged {
    pub number: u32,
    pub place: u64,
    pub second: u64,
    pub bytes: u64,
    pub times: u64,
    pub entries: u64,
}
