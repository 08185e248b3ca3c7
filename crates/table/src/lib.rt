// The parameter table: nine settings with a present and a permanent value each, some of them locked.
#![tactic(auto)]

ghost use Rattle.std.specs.Prelude.{◌+◌, ◌*◌, ◌≤◌, ◌<◌, ◌≡◌, length};
ghost use Rattle.table.specs.Rows.{parameter_count};
ghost use Rattle.table.specs.Promises.{Defaults, SetsDefaults, PowerUp, Sets, SendLengthAllowed, RequestLengthAllowed, Value, Locked, Allowed, Answers, Restores, Place, TriggerAllowed, Takes, Settable, AllSettable, Full, Puts, Changes, AllPairs, AskedPairs, Fits, Asks};

use packet::Refusal;
use std::array;

// How many parameters there are.
pub const PARAMETER_COUNT: usize = 9;
// The longest data of an answer: the beep byte, and number and value of each parameter.
pub const PAIRS_SIZE: usize = 1 + 2 * PARAMETER_COUNT;

// The allowed settings, a row for each parameter in rising order: its number, lowest, highest, house default.
// The rules (docs/PROTOCOL.md, section 18) ask for an array of arrays.
pub const SETTINGS: [[u8; 4]; PARAMETER_COUNT] = [
    [0x80, 0, 1, 0],
    [0x89, 0, 99, 10],
    [0x8A, 0, 8, 0],
    [0x9B, 0, 99, 20],
    [0x9C, 1, 7, 6],
    [0x9E, 0, 4, 4],
    [0x9F, 0, 1, 1],
    [0xED, 0, 99, 0],
    [0xEE, 0, 1, 1],
];

// In a list of numbers that are asked for: all of them.
const ALL: u8 = 0xFE;

// The one parameter that does not take every value of its range.
const TRIGGER: u8 = 0x8A;

// Which parameters are locked, and their present and permanent values, in the order of the settings.
// It has three arrays, because the control bytes and C's mk_table have three rows of nine.
#[derive(Clone, Copy)]
pub struct Table {
    pub locked: [bool; PARAMETER_COUNT],
    pub present: [u8; PARAMETER_COUNT],
    pub permanent: [u8; PARAMETER_COUNT],
}

// The house defaults, present and permanent, with nothing locked.
pub fn defaults() -> Table
    ensures { Defaults result }
{
    set_defaults(Table {
        locked: [false; PARAMETER_COUNT],
        present: [0; PARAMETER_COUNT],
        permanent: [0; PARAMETER_COUNT],
    })
}

// PARAM_DEFAULTS: every parameter that is not locked to its house default, present and permanent.
pub fn set_defaults(table: Table) -> Table
    ensures { SetsDefaults table result }
{
    Table {
        present: restored(table.locked, table.present),
        permanent: restored(table.locked, table.permanent),
        ..table
    }
}

fn restored(locked: [bool; PARAMETER_COUNT], values: [u8; PARAMETER_COUNT]) -> [u8; PARAMETER_COUNT]
    ensures { Restores locked values result }
{
    array::from_fn(|i| if locked[i] {
        values[i]
    } else {
        let [.., default] = SETTINGS[i];
        default
    })
}

// Power-up copies permanent to present.
pub fn power_up(table: Table) -> Table
    ensures { PowerUp table result }
{
    // The prover takes no array straight from another value's field into a literal, so a local carries it.
    let values = table.permanent;
    Table {
        present: values,
        ..table
    }
}

// Sets a list of pairs, number and value, all or nothing: 7 for a number with nothing after it, then 9, for a locked one too.
pub fn set(table: Table, pairs: &[u8], permanent: bool) -> Result<Table, Refusal>
    ensures { Sets table pairs.now permanent result }
{
    let (pairs, rest) = pairs.as_chunks();
    if !rest.is_empty() {
        return Err(Refusal::Data);
    }
    if !all_settable(table.locked, pairs) {
        return Err(Refusal::Setting);
    }
    Ok(change(table, pairs, permanent))
}

// Whether the data of a PARAM_SEND is a beep byte and pairs behind it.
pub fn send_length_allowed(data: &[u8]) -> bool
    ensures { SendLengthAllowed «data».now result }
{
    data.len() % 2 == 1
}

// Whether the data of a PARAM_REQUEST is one number or more, and no more than a packet holds.
pub fn request_length_allowed(data: &[u8]) -> bool
    ensures { RequestLengthAllowed «data».now result }
{
    !data.is_empty() && data.len() <= packet::DATA_SIZE
}

// Without permanent only present values change; with it both do.
fn change(table: Table, pairs: &[[u8; 2]], permanent: bool) -> Table
    ensures { Changes table pairs.now permanent result }
{
    let mut next = table;
    for &[number, value] in pairs {
        put(&mut next.present, number, value);
        if permanent {
            put(&mut next.permanent, number, value);
        }
    }
    next
}

// The present value of a parameter. Where it is not supported the promise `Value` gives 0, which mk_reader_value tells.
pub fn value(table: Table, number: u8) -> u8
    ensures { Value table number result }
{
    match place(number) {
        Some(at) => table.present[at],
        None => 0,
    }
}

// Whether a parameter is locked; one that is not supported is not.
pub fn locked(table: Table, number: u8) -> bool
    ensures { Locked table number result }
{
    match place(number) {
        Some(at) => table.locked[at],
        None => false,
    }
}

// The data of the PARAM_SEND that answers a request: beep byte FFh, then the pairs. 13 for room under PAIRS_SIZE.
pub fn answer(table: Table, asked: &[u8], room: &mut [u8]) -> Result<usize, Refusal>
    ensures { Answers table asked.now room.old result room.new }
{
    if room.len() < PAIRS_SIZE {
        return Err(Refusal::Room);
    }
    room[0] = 0xFF;
    if asked.contains(&ALL) {
        words::copy(&all_pairs(table.present), &mut room[1..]);
        return Ok(PAIRS_SIZE);
    }
    let count = asked_pairs(table.present, asked, &mut room[1..]);
    Ok(count + 1)
}

// Number and value of each parameter, in rising order.
pub fn all_pairs(values: [u8; PARAMETER_COUNT]) -> [u8; 2 * PARAMETER_COUNT]
    ensures { AllPairs values result }
{
    let mut pairs = [0; 2 * PARAMETER_COUNT];
    for (i, (&[number, ..], &value)) in SETTINGS.iter().zip(&values).enumerate() {
        pairs[2 * i] = number;
        pairs[2 * i + 1] = value;
    }
    pairs
}

// The pairs of the numbers asked for, in order of first asking, each once.
fn asked_pairs(values: [u8; PARAMETER_COUNT], asked: &[u8], room: &mut [u8]) -> usize
    requires { 2 * parameter_count ≤ length room.old }
    ensures { AskedPairs values asked.now room.old result room.new }
{
    let mut seen = [false; PARAMETER_COUNT];
    let mut at = 0;
    for &number in asked {
        at = ask(&mut seen, at, values, number, room);
    }
    at
}

// One number asked for: its pair behind those before it, unless it is unsupported or has been answered.
// It takes five parameters, because the loop's body then has a contract of its own.
fn ask(
    seen: &mut [bool; PARAMETER_COUNT],
    at: usize,
    values: [u8; PARAMETER_COUNT],
    number: u8,
    room: &mut [u8],
) -> usize
    requires { Fits seen.old at room.old }
    ensures { Asks seen.old at values number room.old result seen.new room.new }
{
    let Some(row) = place(number) else {
        return at;
    };
    if seen[row] {
        return at;
    }
    seen[row] = true;
    room[at] = number;
    room[at + 1] = values[row];
    at + 2
}

// Whether every pair may be set. It takes the locks alone, so that no table is moved for it.
fn all_settable(locked: [bool; PARAMETER_COUNT], pairs: &[[u8; 2]]) -> bool
    ensures { AllSettable locked pairs.now result }
{
    pairs
        .iter()
        .all(|&[number, value]| settable(locked, number, value))
}

// Whether the parameter is not locked and takes the value.
fn settable(locked: [bool; PARAMETER_COUNT], number: u8, value: u8) -> bool
    ensures { Settable locked number value result }
{
    match place(number) {
        Some(at) => !locked[at] && takes(SETTINGS[at], value),
        None => false,
    }
}

// One pair; of a number named twice the later value holds.
fn put(values: &mut [u8; PARAMETER_COUNT], number: u8, value: u8)
    requires { Full values.old }
    ensures { Puts values.old number value values.new }
{
    if let Some(at) = place(number) {
        values[at] = value;
    }
}

// Whether the parameter is supported and takes the value.
pub fn allowed(number: u8, value: u8) -> bool
    ensures { Allowed number value result }
{
    match place(number) {
        Some(at) => takes(SETTINGS[at], value),
        None => false,
    }
}

// Whether the parameter of a row takes the value. A value outside leaves first: one chain of tests leaves a goal over the joined test.
fn takes(row: [u8; 4], value: u8) -> bool
    ensures { Takes row value result }
{
    let [number, lowest, highest, _] = row;
    if value < lowest || highest < value {
        return false;
    }
    number != TRIGGER || trigger_allowed(value)
}

// 8Ah takes only 0, 2, 4, 7, 8.
fn trigger_allowed(value: u8) -> bool
    ensures { TriggerAllowed value result }
{
    matches!(value, 0 | 2 | 4 | 7 | 8)
}

// Where a parameter stands among the settings. Its callers match on it, because a closure's bound would be a goal of its own.
fn place(number: u8) -> Option<usize>
    ensures { Place number result }
{
    SETTINGS.iter().position(|&[first, ..]| first == number)
}
