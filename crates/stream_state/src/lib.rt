// The state between two calls as C lends it, 7,168 bytes (document 02, K4): its one written test, its numbers out of and into the bytes,
// and a piece put behind the bytes that wait.
#![tactic(auto)]

ghost use Rattle.std.specs.Prelude.{◌≡◌, ◌+◌, ◌*◌, ◌-◌, ◌^◌, ◌<◌, ◌≤◌, length, replicate, take, true, false, not, ◌&&◌, ◌||◌, eqb, leb};
ghost use mathlib.Core.List.{[], flat_map, map};
ghost use Rattle.format.specs.Bits.{bit};
ghost use Rattle.format.specs.Item.{sided};
ghost use Rattle.format.specs.Lists.{list};
ghost use Rattle.format.specs.Plan.{legal};
ghost use Rattle.format.specs.Word.{word_of};
ghost use Rattle.format.specs.Laws.Reader.Held.{held_parts};
ghost use Rattle.data_word.specs.Holding.{Sane, held_of};
ghost use Rattle.format.specs.Laws.Limits.{Shape};
ghost use Rattle.format.specs.Answer.{over};
ghost use Rattle.from_c.specs.Numbers.{are_kinds, time_bytes, times_from};
ghost use Rattle.stream_rules.specs.Stream.{closed, fits, failed, fresh, is_arinc, place_fits, waits_fit, working};
ghost use Rattle.stream_rules.specs.StateNumbers.{four_words, kind_number};
ghost use Rattle.stream_state.specs.Layout.{number_at, state_at, state_bytes};
ghost use Rattle.stream_state.specs.Parts.{are_zeros, bits_fit, buses_fit, buses_in, kinds_at, lead_of, plan_named, size_fits, used_in, used_of, wait_fits, waits_in};
ghost use Rattle.stream_state.specs.Again.{again, again_from, again_of};
ghost use Rattle.stream_state.specs.Loading.{Planned, Sized};
ghost use Rattle.stream_state.specs.Stand.{loaded_of, no_stand, stopped, working_of};
ghost use Rattle.stream_state.specs.Storing.{Storable, Waits, arinc_in, command_in, front_row, kept_in, staged, stand_row, waiting_bytes};
ghost use Rattle.format.specs.Reader.{bad};
ghost use Rattle.format.specs.declared.Held.TheVariants.{Nothing};

use data_word::{Holding, feed, nothing};
use format::{Kind, Plan};
use from_c::{kind_of, plan_from, put_times, time_at, times_from};
use plan;

// A state at work, by its numbers: the bits not yet a byte and how many they are, the groups read, the place of the held item's first
// word, what is held, and how many bytes wait. The kinds, the table of unanswered notices and the bytes that wait go beside it.
#[derive(Clone, Copy)]
pub struct Stand {
    pub plan: Plan,
    pub left: u32,
    pub last: u32,
    pub groups: u64,
    pub since: u64,
    pub held: Holding,
    pub waiting: usize,
}

// What lent bytes are: 0 a closed state, 1 one at work, 2 one with a fault, 3 none.
#[derive(Clone, Copy)]
pub struct Loaded {
    pub stage: u32,
    pub stand: Stand,
    pub number: u32,
    pub place: u64,
    pub second: u64,
}

// ---- Tests of a few numbers

fn numbers_zero(state: &[u8], first: usize, end: usize) -> bool
    requires { (first ≤ end) × (8 * end ≤ length state.now) }
    ensures { result ≡ are_zeros (list (number_at state.now) first (end - first)) }
{
    let mut index = first;
    while index < end {
        if time_at(state, 8 * index) != 0 {
            return false;
        }
        index += 1;
    }
    true
}

// No way out of the loop, so that it takes many bytes at once.
fn few_zero(bytes: &[u8]) -> bool
    ensures { result ≡ are_zeros bytes.now }
{
    let mut any: u8 = 0;
    let mut index = 0;
    while index < bytes.len() {
        any = any | bytes[index];
        index += 1;
    }
    any == 0
}

// Four runs of one length side by side: no step waits for the one before.
fn four_zero(first: &[u8], second: &[u8], third: &[u8], fourth: &[u8]) -> bool
    requires { (length second.now ≡ length first.now) × (length third.now ≡ length first.now) × (length fourth.now ≡ length first.now) }
    ensures { result ≡ ((are_zeros first.now && are_zeros second.now) && (are_zeros third.now && are_zeros fourth.now)) }
{
    let mut any: u8 = 0;
    let mut any2: u8 = 0;
    let mut any3: u8 = 0;
    let mut any4: u8 = 0;
    let mut index = 0;
    while index < first.len() {
        any = any | first[index];
        any2 = any2 | second[index];
        any3 = any3 | third[index];
        any4 = any4 | fourth[index];
        index += 1;
    }
    (any | any2) | (any3 | any4) == 0
}

// Four runs and what is left over. Runs of whole 32 bytes leave few over.
fn runs_zero(bytes: &[u8]) -> bool
    ensures { result ≡ are_zeros bytes.now }
{
    let part = bytes.len() / 128 * 32;
    let third = 2 * part;
    let fourth = 3 * part;
    let rest = 4 * part;
    if !few_zero(&bytes[rest..]) {
        return false;
    }
    four_zero(
        &bytes[0..part],
        &bytes[part..third],
        &bytes[third..fourth],
        &bytes[fourth..rest],
    )
}

// The state is 7,168 bytes, nearly all of them zeros that are looked at in each call. What is left over stands in front: the runs then
// stand as the state's end stands in memory, wherever they begin.
fn bytes_zero(bytes: &[u8]) -> bool
    ensures { result ≡ are_zeros bytes.now }
{
    let front = bytes.len() % 128;
    if few_zero(&bytes[0..front]) {
        return runs_zero(&bytes[front..]);
    }
    false
}

fn plan_named(
    words: u64,
    tracks: u64,
    frame_time: u64,
    crc: u64,
    parity: u64,
    label: u64,
    code: u64,
) -> bool
    ensures { result ≡ plan_named words tracks frame_time crc parity label code }
{
    if 512 < words {
        return false;
    }
    if 4 < tracks {
        return false;
    }
    if 1 < frame_time {
        return false;
    }
    if 1 < crc {
        return false;
    }
    if 1 < parity {
        return false;
    }
    if 7 < label {
        return false;
    }
    code <= 15
}

fn both(a: bool, b: bool) -> bool
    ensures { result ≡ (a && b) }
{
    if a { b } else { false }
}

fn one_used(number: u64) -> u64
    ensures { result ≡ used_of number }
{
    if number == 0 { 0 } else { 1 }
}

// Whether the numbers of some buses are kinds, and how many of the buses are used.
#[derive(Clone, Copy)]
pub struct Buses {
    pub named: bool,
    pub used: u64,
}

// Eight at once, all of them looked at: faster than one by one.
fn eight_buses(state: &[u8], first: usize) -> Buses
    requires { (length state.now ≡ 7168) × (first ≤ 28) }
    ensures { result ≡ buses_in (list (number_at state.now) first 8) }
{
    let mut named = true;
    let mut used: u64 = 0;
    let mut index = 0;
    while index < 8 {
        let number = time_at(state, 8 * (first + index));
        named = both(named, number <= 2);
        used += one_used(number);
        index += 1;
    }
    Buses { named, used }
}

// The rest of what makes a plan legal whose numbers are named goes by how many buses are used, and how many above 7.
fn tracks_fit(tracks: usize, used: u64) -> bool
    ensures { result ≡ (leb 1 tracks && (eqb tracks 1 || eqb used 1)) }
{
    if tracks < 1 {
        return false;
    }
    if tracks == 1 {
        return true;
    }
    used == 1
}

fn parity_fits(parity: bool, above: u64, code: u32) -> bool
    ensures { result ≡ (not parity || (eqb above 0 && leb code 7)) }
{
    if parity {
        if above == 0 {
            return code <= 7;
        }
        return false;
    }
    true
}

fn buses_fit(plan: Plan, used: u64, above: u64) -> bool
    ensures { result ≡ buses_fit plan used above }
{
    if plan.words < 128 {
        return false;
    }
    if tracks_fit(plan.tracks, used) {
        return parity_fits(plan.parity, above, plan.fill_bus);
    }
    false
}

// The sixteen kinds of a state at work.
pub fn kinds_at(state: &[u8]) -> [Kind; 16]
    requires { length state.now ≡ 7168 }
    ensures { result ≡ kinds_at state.now }
{
    let mut kinds = [Kind::Unused; 16];
    let mut bus = 0;
    while bus < 16 {
        kinds[bus] = kind_of(state[167 + 8 * bus]);
        bus += 1;
    }
    kinds
}

// Above 2^40 groups there is nothing to multiply: even the smallest group has bytes.
fn size_fits(plan: Plan, groups: u64, waiting: u64) -> bool
    requires { Shape plan }
    ensures { result ≡ size_fits plan groups waiting }
{
    let size = 3 * plan::group_words(plan) as u64;
    if size <= waiting {
        return false;
    }
    if 0x10000000000 < groups {
        return false;
    }
    groups * size + waiting <= 0x10000000000
}

fn bits_fit(left: u64, last: u64) -> bool
    ensures { result ≡ bits_fit left last }
{
    if 8 <= left {
        return false;
    }
    last < 1 << left
}

fn place_fits(plan: Plan, groups: u64, since: u64) -> bool
    requires { Shape plan × (groups ≤ 1099511627776) }
    ensures { result ≡ place_fits plan groups since }
{
    if since == 0 {
        return true;
    }
    since < groups * plan::group_words(plan) as u64
}

// ---- What is loaded

fn no_stand() -> Stand
    ensures { result ≡ no_stand }
{
    Stand {
        plan: plan_from(0, 0, 0, 0, 0, 0, 0),
        left: 0,
        last: 0,
        groups: 0,
        since: 0,
        held: nothing(),
        waiting: 0,
    }
}

fn ended(stage: u32, number: u32, place: u64, second: u64) -> Loaded
    ensures { result ≡ stopped stage number place second }
{
    Loaded {
        stage,
        stand: no_stand(),
        number,
        place,
        second,
    }
}

fn load_closed(state: &[u8]) -> Loaded
    requires { (length state.now ≡ 7168) × (number_at state.now 0 ≡ 1025 → ⊥) × (number_at state.now 0 ≡ 1026 → ⊥) }
    ensures { result ≡ loaded_of state.now }
{
    if !numbers_zero(state, 0, 101) {
        return ended(3, 0, 0, 0);
    }
    if !bytes_zero(&state[808..]) {
        return ended(3, 0, 0, 0);
    }
    ended(0, 0, 0, 0)
}

// "9 to 13" or 15, places within 2^40 bytes, and a second place in 13 only.
fn fault_fits(number: u64, place: u64, second: u64) -> bool
    ensures { result ≡ fits (failed number place second) }
{
    if number < 9 {
        return false;
    }
    if 15 < number {
        return false;
    }
    if number == 14 {
        return false;
    }
    if 0x5555555555 < place {
        return false;
    }
    if number == 13 {
        return second <= 0x5555555555;
    }
    second == 0
}

fn load_failed(state: &[u8]) -> Loaded
    requires { (length state.now ≡ 7168) × (number_at state.now 0 ≡ 1026) }
    ensures { result ≡ loaded_of state.now }
{
    let number = time_at(state, 96);
    let place = time_at(state, 104);
    let second = time_at(state, 112);
    if !fault_fits(number, place, second) {
        return ended(3, 0, 0, 0);
    }
    if !numbers_zero(state, 1, 12) {
        return ended(3, 0, 0, 0);
    }
    if !numbers_zero(state, 15, 101) {
        return ended(3, 0, 0, 0);
    }
    if !bytes_zero(&state[808..]) {
        return ended(3, 0, 0, 0);
    }
    ended(2, number as u32, place, second)
}

// ---- What is held, by its words

// What words hold; `bad` if they are not those of an item that may be held.
#[derive(Clone, Copy)]
pub struct Again {
    pub bad: bool,
    pub held: Holding,
}

fn lost() -> Again
    ensures { result ≡ again_from bad }
{
    Again {
        bad: true,
        held: nothing(),
    }
}

fn kept(held: Holding) -> Again
    ensures { result ≡ (record { bad = false; held = held }) }
{
    Again { bad: false, held }
}

// The words, at most four, are fed one after the other: none may be bad or finish an item.
fn refeed(state: &[u8], count: usize, kinds: [Kind; 16]) -> Again
    requires { (length state.now ≡ 7168) × (count ≤ 4) }
    ensures { result ≡ again_from (again kinds Nothing (list (number_at state.now) 16 count)) }
{
    let mut held = nothing();
    let mut index = 0;
    while index < count {
        let word = time_at(state, 128 + 8 * index);
        if 0x1000000 <= word {
            return lost();
        }
        let bus = (word / 0x100000) as u32;
        let label = (word / 0x10000 % 16) as u32;
        let information = (word % 0x10000) as u32;
        let step = feed(held, kinds, bus, label, information);
        if step.bad {
            return lost();
        }
        if step.first_width != 0 {
            return lost();
        }
        if step.second_width != 0 {
            return lost();
        }
        held = step.held;
        index += 1;
    }
    kept(held)
}

fn held_at(state: &[u8]) -> Again
    requires { length state.now ≡ 7168 }
    ensures { result ≡ again_of (kinds_at state.now) (list (number_at state.now) 15 5) }
{
    if few_zero(&state[120..160]) {
        return kept(nothing());
    }
    let count = time_at(state, 120);
    if 4 < count {
        return lost();
    }
    let words = count as usize;
    let first = 16 + words;
    if !numbers_zero(state, first, 20) {
        return lost();
    }
    let kinds = kinds_at(state);
    refeed(state, words, kinds)
}

// ---- Unanswered notices

fn is_arinc(kind: Kind) -> bool
    ensures { result ≡ is_arinc kind }
{
    match kind {
        Kind::Unused => false,
        Kind::Mil1553 => false,
        Kind::Arinc429 => true,
    }
}

// None, or the number of a data slot in the groups read, on an ARINC bus.
fn wait_fits(kind: Kind, number: u64, end: u64, lead: u64, last: u64) -> bool
    ensures { result ≡ wait_fits kind number end lead last }
{
    if number == 0 {
        return true;
    }
    if end <= number {
        return false;
    }
    if number % 2048 <= lead {
        return false;
    }
    if last < number % 2048 {
        return false;
    }
    is_arinc(kind)
}

fn lead(frame_time: bool) -> u64
    ensures { result ≡ lead_of frame_time }
{
    if frame_time { 3 } else { 0 }
}

fn waits_in(table: &[u64], kinds: [Kind; 16], end: u64, lead: u64, last: u64) -> bool
    requires { length table.now ≡ 64 }
    ensures { result ≡ waits_in kinds end lead last 0 table.now }
{
    let mut index = 0;
    while index < 64 {
        if !wait_fits(kinds[index / 4], table[index], end, lead, last) {
            return false;
        }
        index += 1;
    }
    true
}

fn none_waits(table: &[u64]) -> bool
    ensures { result ≡ are_zeros table.now }
{
    let mut any: u64 = 0;
    let mut index = 0;
    while index < table.len() {
        any = any | table[index];
        index += 1;
    }
    any == 0
}

fn clear_table(table: &mut [u64])
    ensures { table.new ≡ replicate (length table.old) 0 }
{
    let mut index = 0;
    while index < table.len() {
        table[index] = 0;
        index += 1;
    }
}

// Numbers are taken apart only if there are any.
fn read_table(bytes: &[u8], table: &mut [u64])
    requires { (length bytes.now ≡ 512) × (length table.old ≡ 64) }
    ensures { table.new ≡ over (times_from bytes.now) table.old }
{
    if bytes_zero(bytes) {
        clear_table(table);
        return;
    }
    times_from(bytes, table);
}

// The numbers of the unanswered notices of a state at work.
pub fn notices_at(state: &[u8], table: &mut [u64])
    requires { (length state.now ≡ 7168) × (length table.old ≡ 64) }
    ensures { table.new ≡ list (number_at state.now) 36 64 }
{
    read_table(&state[288..800], table);
}

fn each_fits(state: &[u8], plan: Plan, groups: u64) -> bool
    requires { Shape plan × (groups ≤ 1099511627776) × (length state.now ≡ 7168) }
    ensures { result ≡ waits_fit plan (kinds_at state.now) groups 0 (list (number_at state.now) 36 64) }
{
    let mut table = [0u64; 64];
    notices_at(state, &mut table);
    let kinds = kinds_at(state);
    let lead = lead(plan.frame_time);
    let last = lead + plan::slots(plan) as u64;
    waits_in(&table, kinds, groups * 2048, lead, last)
}

// Most states have no notice that waits.
fn waits_fit(state: &[u8], plan: Plan, groups: u64) -> bool
    requires { Shape plan × (groups ≤ 1099511627776) × (length state.now ≡ 7168) }
    ensures { result ≡ waits_fit plan (kinds_at state.now) groups 0 (list (number_at state.now) 36 64) }
{
    if few_zero(&state[288..800]) {
        return true;
    }
    each_fits(state, plan, groups)
}

// ---- A state at work

// The rest of the written test, of a state whose plan and size fit.
fn load_sized(state: &[u8], plan: Plan, groups: u64, waiting: u64) -> Loaded
    requires { Sized state.now plan groups waiting (kinds_at state.now) }
    ensures { result ≡ loaded_of state.now }
{
    let left = time_at(state, 64);
    let last = time_at(state, 72);
    let since = time_at(state, 88);
    if !bits_fit(left, last) {
        return ended(3, 0, 0, 0);
    }
    if !place_fits(plan, groups, since) {
        return ended(3, 0, 0, 0);
    }
    if !numbers_zero(state, 12, 15) {
        return ended(3, 0, 0, 0);
    }
    let again = held_at(state);
    if again.bad {
        return ended(3, 0, 0, 0);
    }
    if !waits_fit(state, plan, groups) {
        return ended(3, 0, 0, 0);
    }
    if !bytes_zero(&state[808..1024]) {
        return ended(3, 0, 0, 0);
    }
    let held = again.held;
    let end = 1024 + waiting as usize;
    if !bytes_zero(&state[end..]) {
        return ended(3, 0, 0, 0);
    }
    Loaded {
        stage: 1,
        stand: Stand {
            plan,
            left: left as u32,
            last: last as u32,
            groups,
            since,
            held,
            waiting: waiting as usize,
        },
        number: 0,
        place: 0,
        second: 0,
    }
}

fn load_planned(state: &[u8], plan: Plan, used: u64, above: u64) -> Loaded
    requires { Planned state.now plan × (used ≡ used_in (list (number_at state.now) 20 16)) × (above ≡ used_in (list (number_at state.now) 28 8)) }
    ensures { result ≡ loaded_of state.now }
{
    if !buses_fit(plan, used, above) {
        return ended(3, 0, 0, 0);
    }
    let groups = time_at(state, 80);
    let waiting = time_at(state, 800);
    if !size_fits(plan, groups, waiting) {
        return ended(3, 0, 0, 0);
    }
    load_sized(state, plan, groups, waiting)
}

fn load_working(state: &[u8]) -> Loaded
    requires { (length state.now ≡ 7168) × (number_at state.now 0 ≡ 1025) }
    ensures { result ≡ loaded_of state.now }
{
    let words = time_at(state, 8);
    let tracks = time_at(state, 16);
    let frame_time = time_at(state, 24);
    let crc = time_at(state, 32);
    let parity = time_at(state, 40);
    let label = time_at(state, 48);
    let code = time_at(state, 56);
    if !plan_named(words, tracks, frame_time, crc, parity, label, code) {
        return ended(3, 0, 0, 0);
    }
    let low = eight_buses(state, 20);
    let high = eight_buses(state, 28);
    if !both(low.named, high.named) {
        return ended(3, 0, 0, 0);
    }
    let plan = plan_from(
        words as u32,
        tracks as u32,
        frame_time as u32,
        crc as u32,
        parity as u32,
        label as u32,
        code as u32,
    );
    load_planned(state, plan, low.used + high.used, high.used)
}

// The one written test of lent bytes, and what they say.
pub fn load(state: &[u8]) -> Loaded
    ensures { result ≡ loaded_of state.now }
{
    if state.len() != 7168 {
        return ended(3, 0, 0, 0);
    }
    let stage = time_at(state, 0);
    if stage == 1025 {
        return load_working(state);
    }
    if stage == 1026 {
        return load_failed(state);
    }
    load_closed(state)
}

// ---- Into the bytes

fn clear(bytes: &mut [u8])
    ensures { bytes.new ≡ replicate (length bytes.old) 0 }
{
    let mut index = 0;
    while index < bytes.len() {
        bytes[index] = 0;
        index += 1;
    }
}

// A closed state.
pub fn store_closed(state: &mut [u8])
    requires { length state.old ≡ 7168 }
    ensures { state.new ≡ state_bytes closed }
{
    clear(&mut state[0..7168]);
}

// All bytes of `from`.
fn copy(to: &mut [u8], from: &[u8])
    requires { length to.old ≡ length from.now }
    ensures { to.new ≡ from.now }
{
    let mut index = 0;
    while index < from.len() {
        to[index] = from[index];
        index += 1;
    }
}

// A state with a fault, by its number and both places.
pub fn store_failed(state: &mut [u8], number: u32, place: u64, second: u64)
    requires { (length state.old ≡ 7168) × (fits (failed number place second) ≡ true) }
    ensures { state.new ≡ state_bytes (failed number place second) }
{
    let stage = [1026u64; 1];
    put_times(&stage, 1, &mut state[0..8]);
    clear(&mut state[8..96]);
    let fault = [number as u64, place, second];
    put_times(&fault, 3, &mut state[96..120]);
    clear(&mut state[120..7168]);
}

// ---- A state at work, by its numbers

fn word(bus: u32, label: u32, information: u32) -> u64
    ensures { result ≡ word_of bus label information }
{
    bus as u64 * 0x100000 + label as u64 * 0x10000 + information as u64
}

fn command_label(side: bool) -> u32
    ensures { result ≡ sided 15 side }
{
    if side { 11 } else { 15 }
}

// The words of a command that is held, and of its time so far.
fn command_words(bus: u32, base: u64, stage: u32, time: u32) -> [u64; 5]
    ensures { result ≡ four_words (held_parts (staged (command_in bus base) stage time)) }
{
    let label = command_label(base / 0x20000 % 2 == 1);
    let first = word(bus, label, (base % 0x10000) as u32);
    if stage == 7 {
        return [1, first, 0, 0, 0];
    }
    if stage == 6 {
        let high = word(bus, 7, time);
        return [2, first, high, 0, 0];
    }
    let high = word(bus, 7, time / 0x10000);
    let low = word(bus, 6, time % 0x10000);
    [3, first, high, low, 0]
}

// And of an ARINC word.
fn arinc_words(bus: u32, base: u64, stage: u32, time: u32) -> [u64; 5]
    ensures { result ≡ four_words (held_parts (staged (arinc_in bus base) stage time)) }
{
    let channel = (base / 0x200000000 % 4) as u32;
    let both = base % 0x100000000;
    let first = word(bus, 9 + 2 * channel, (both / 0x10000) as u32);
    let second = word(bus, 8 + 2 * channel, (both % 0x10000) as u32);
    if stage == 7 {
        return [2, first, second, 0, 0];
    }
    if stage == 6 {
        let high = word(bus, 7, time);
        return [3, first, second, high, 0];
    }
    let high = word(bus, 7, time / 0x10000);
    let low = word(bus, 6, time % 0x10000);
    [4, first, second, high, low]
}

// How many words what is held has, and these.
fn held_words(held: Holding) -> [u64; 5]
    requires { Sane held }
    ensures { result ≡ four_words (held_parts (held_of held)) }
{
    let base = held.base;
    let time = held.time;
    let awaits = held.awaits;
    if awaits == 0 {
        return [0; 5];
    }
    if 256 <= awaits {
        let answer = word(awaits / 16 % 16, 4, time);
        return [1, answer, 0, 0, 0];
    }
    let bus = awaits / 16;
    let stage = awaits % 16;
    if 8 <= stage {
        let high = word(bus, stage + 1, (base % 0x10000) as u32);
        return [1, high, 0, 0, 0];
    }
    if base < 0x100000000 {
        return command_words(bus, base, stage, time);
    }
    arinc_words(bus, base, stage, time)
}

fn kind_number(kind: Kind) -> u64
    ensures { result ≡ kind_number kind }
{
    match kind {
        Kind::Unused => 0,
        Kind::Mil1553 => 1,
        Kind::Arinc429 => 2,
    }
}

fn kind_numbers(kinds: [Kind; 16]) -> [u64; 16]
    requires { length kinds ≡ 16 }
    ensures { result ≡ map kind_number kinds }
{
    let mut numbers = [0u64; 16];
    let mut bus = 0;
    while bus < 16 {
        numbers[bus] = kind_number(kinds[bus]);
        bus += 1;
    }
    numbers
}

fn flag(choice: bool) -> u64
    ensures { result ≡ bit choice }
{
    if choice { 1 } else { 0 }
}

fn put_stand(stand: Stand, bytes: &mut [u8])
    requires { length bytes.old ≡ 120 }
    ensures { bytes.new ≡ flat_map time_bytes (stand_row stand) }
{
    let plan = stand.plan;
    let frame_time = flag(plan.frame_time);
    let crc = flag(plan.crc);
    let parity = flag(plan.parity);
    let row = [
        1025,
        plan.words as u64,
        plan.tracks as u64,
        frame_time,
        crc,
        parity,
        plan.crc_label as u64,
        plan.fill_bus as u64,
        stand.left as u64,
        stand.last as u64,
        stand.groups,
        stand.since,
        0,
        0,
        0,
    ];
    put_times(&row, 15, bytes);
}

fn put_table(table: &[u64], bytes: &mut [u8])
    requires { (length table.now ≡ 64) × (length bytes.old ≡ 512) }
    ensures { bytes.new ≡ over (flat_map time_bytes (take 64 table.now)) bytes.old }
{
    if none_waits(table) {
        clear(bytes);
        return;
    }
    put_times(table, 64, bytes);
}

fn put_front(stand: Stand, kinds: [Kind; 16], table: &[u64], bytes: &mut [u8])
    requires { (length bytes.old ≡ 800) × (length table.now ≡ 64) × (length kinds ≡ 16) × Sane stand.held }
    ensures { bytes.new ≡ flat_map time_bytes (front_row kinds stand table.now) }
{
    put_stand(stand, &mut bytes[0..120]);
    let words = held_words(stand.held);
    put_times(&words, 5, &mut bytes[120..160]);
    let numbers = kind_numbers(kinds);
    put_times(&numbers, 16, &mut bytes[160..288]);
    put_table(table, &mut bytes[288..800]);
}

fn put_count(count: usize, bytes: &mut [u8])
    requires { length bytes.old ≡ 8 }
    ensures { bytes.new ≡ time_bytes count }
{
    let row = [count as u64; 1];
    put_times(&row, 1, bytes);
}

fn put_waiting(waiting: &[u8], bytes: &mut [u8])
    requires { (length bytes.old ≡ 6368) × (length waiting.now ≤ 6144) }
    ensures { bytes.new ≡ waiting_bytes waiting.now }
{
    let end = 224 + waiting.len();
    put_count(waiting.len(), &mut bytes[0..8]);
    clear(&mut bytes[8..224]);
    copy(&mut bytes[224..end], waiting);
    clear(&mut bytes[end..6368]);
}

// A state at work, by its numbers: whatever the bytes were.
pub fn store(state: &mut [u8], stand: Stand, kinds: [Kind; 16], table: &[u64], rest: &[u8])
    requires { (length state.old ≡ 7168) × Storable kinds stand table.now rest.now }
    ensures { state.new ≡ state_bytes (working (working_of kinds stand table.now rest.now)) }
{
    put_front(stand, kinds, table, &mut state[0..800]);
    put_waiting(rest, &mut state[800..7168]);
}

// The state that an opening gives.
pub fn store_open(state: &mut [u8], plan: Plan, kinds: [Kind; 16])
    requires { (length state.old ≡ 7168) × (legal plan kinds ≡ true) × (length kinds ≡ 16) }
    ensures { state.new ≡ state_bytes (working (fresh plan kinds)) }
{
    let stand = Stand {
        plan,
        left: 0,
        last: 0,
        groups: 0,
        since: 0,
        held: nothing(),
        waiting: 0,
    };
    let table = [0u64; 64];
    let none = [0u8; 0];
    store(state, stand, kinds, &table, &none);
}

// A piece that fills no group is put behind the bytes that wait; nothing else is written but their number.
pub fn keep(state: &mut [u8], waiting: usize, piece: &[u8])
    requires { Waits state.old waiting (length piece.now) }
    ensures { state.new ≡ state_bytes (kept_in (state_at state.old) piece.now) }
{
    let first = 1024 + waiting;
    let end = first + piece.len();
    copy(&mut state[first..end], piece);
    put_count(end - 1024, &mut state[800..808]);
}
