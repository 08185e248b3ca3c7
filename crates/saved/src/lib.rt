// The saved set: a table's permanent values and locks as bytes that go from one reader to another.
#![tactic(auto)]

ghost use Rattle.std.specs.Prelude.{◌+◌, ◌*◌, ◌≤◌, ◌<◌, [], ◌∷◌, length};
ghost use Rattle.words.specs.Lists.{Over};
ghost use Rattle.table.specs.Rows.{parameter_count, rows};
ghost use Rattle.saved.specs.Saved.{set_size};
ghost use Rattle.saved.specs.Promises.{least_size, Saves, Loads, Puts, PutsLocks, Stands, ValuesIn, LocksIn, ComesNext, Exact, AllAllowed};

use packet::Refusal;
use std::array;
use table::{PARAMETER_COUNT, SETTINGS, Table};

// The edition's byte at the front of a form.
pub const EDITION: u8 = 1;
// Edition and count stand in front, then number and value of each parameter.
const FRONT_SIZE: usize = 2;

const LOCKS_AT: usize = FRONT_SIZE + 2 * PARAMETER_COUNT;
// With the count of locks: a form with nothing locked.
const LEAST_SIZE: usize = LOCKS_AT + 1;
// The longest form: every parameter locked.
pub const SET_SIZE: usize = LEAST_SIZE + PARAMETER_COUNT;

// Writes permanent values and locks. 13 for room under SET_SIZE.
pub fn save(table: Table, room: &mut [u8]) -> Result<usize, Refusal>
    ensures { Saves table room.old result room.new }
{
    if room.len() < SET_SIZE {
        return Err(Refusal::Room);
    }
    Ok(put(table, room))
}

// Reads a form: the table that replaces the old one, its permanent and present values and the locks. 12 for any other bytes.
pub fn load(form: &[u8]) -> Result<Table, Refusal>
    ensures { Loads form.now result }
{
    if form.len() < LEAST_SIZE {
        return Err(Refusal::Form);
    }
    let set = standing(form);
    if exact(set, form) {
        return Ok(set);
    }
    Err(Refusal::Form)
}

// ---- writing

// The form of a table; how many bytes it has.
fn put(table: Table, room: &mut [u8]) -> usize
    requires { set_size ≤ length room.old }
    ensures { Puts table room.old result room.new }
{
    put_front(room);
    words::copy(&table::all_pairs(table.permanent), &mut room[FRONT_SIZE..]);
    let count = put_locks(table.locked, &mut room[LOCKS_AT..]);
    LOCKS_AT + count
}

// The edition and how many parameters there are.
fn put_front(room: &mut [u8])
    requires { 2 ≤ length room.old }
    ensures { Over (1 ∷ length rows ∷ []) room.old room.new }
{
    room[0] = EDITION;
    room[1] = PARAMETER_COUNT as u8; // nine
}

// How many are locked and their numbers; how many bytes that is.
fn put_locks(locked: [bool; PARAMETER_COUNT], room: &mut [u8]) -> usize
    requires { parameter_count < length room.old }
    ensures { PutsLocks locked room.old result room.new }
{
    let mut count = 0;
    for (&[number, ..], &here) in SETTINGS.iter().zip(&locked) {
        if here {
            count += 1;
            room[count] = number;
        }
    }
    room[0] = count as u8; // at most nine
    count + 1
}

// ---- reading

// The set that stands in a form.
fn standing(form: &[u8]) -> Table
    requires { least_size ≤ length form.now }
    ensures { Stands form.now result }
{
    let values = values_in(&form[FRONT_SIZE..]);
    Table {
        locked: locks_in(&form[LEAST_SIZE..]),
        present: values,
        permanent: values,
    }
}

// The values stand behind their numbers.
fn values_in(bytes: &[u8]) -> [u8; PARAMETER_COUNT]
    requires { 2 * parameter_count ≤ length bytes.now }
    ensures { ValuesIn bytes.now result }
{
    array::from_fn(|i| bytes[2 * i + 1])
}

// A parameter is locked where its number comes next.
fn locks_in(bytes: &[u8]) -> [bool; PARAMETER_COUNT]
    ensures { LocksIn bytes.now result }
{
    let mut locked = [false; PARAMETER_COUNT];
    let mut at = 0;
    for (i, &[number, ..]) in SETTINGS.iter().enumerate() {
        let here = comes_next(bytes, at, number);
        locked[i] = here;
        at += usize::from(here);
    }
    locked
}

fn comes_next(bytes: &[u8], at: usize, number: u8) -> bool
    ensures { ComesNext bytes.now at number result }
{
    at < bytes.len() && bytes[at] == number
}

// Whether the form is that of the set, byte by byte, and every value is allowed.
fn exact(set: Table, form: &[u8]) -> bool
    ensures { Exact set form.now result }
{
    let mut again = [0; SET_SIZE];
    let count = put(set, &mut again);
    form == &again[..count] && all_allowed(set.permanent)
}

// Whether every value is one that its parameter takes.
pub fn all_allowed(values: [u8; PARAMETER_COUNT]) -> bool
    ensures { AllAllowed values result }
{
    SETTINGS
        .iter()
        .zip(&values)
        .all(|(&[number, ..], &value)| table::allowed(number, value))
}
