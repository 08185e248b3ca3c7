// A parameter table that a board keeps itself and lends as a struct, and the table that it stands for. The calls of lib.rt alter it where
// it stands.
ghost use Rattle.motikhund.specs.Tables.{TableOf, WithValues, StructOf, AllAllowed};

use crate::control;
use table::{PARAMETER_COUNT, Table};

// Present and permanent values and locks in the order of the settings. A lock is a byte, 1 where the parameter is locked: any bytes are
// some table. C calls it `mk_table`, and the three arrays are its fields there.
#[repr(C)]
#[derive(Clone, Copy)]
pub struct MkTable {
    pub present: [u8; PARAMETER_COUNT],
    pub permanent: [u8; PARAMETER_COUNT],
    pub locked: [u8; PARAMETER_COUNT],
}

// Whether every value, present and permanent, is one that its parameter takes.
pub(crate) fn all_allowed(kept: MkTable) -> bool
    ensures { AllAllowed kept result }
{
    saved::all_allowed(kept.present) && saved::all_allowed(kept.permanent)
}

// The table that a struct stands for. Its arrays go through locals, as below: the prover does not follow one from a field straight into a struct.
pub(crate) fn table_of(kept: MkTable) -> Table
    ensures { TableOf kept result }
{
    let present = kept.present;
    let permanent = kept.permanent;
    let locked = control::locks(&kept.locked);
    Table {
        present,
        permanent,
        locked,
    }
}

// The struct with a table's values. The locks are left as they stand, byte by byte.
pub(crate) fn with_values(kept: MkTable, next: Table) -> MkTable
    ensures { WithValues kept next result }
{
    let present = next.present;
    let permanent = next.permanent;
    MkTable {
        present,
        permanent,
        ..kept
    }
}

// The struct of a table.
pub(crate) fn struct_of(table: Table) -> MkTable
    ensures { StructOf table result }
{
    let present = table.present;
    let permanent = table.permanent;
    let locked = control::lock_bytes(table.locked);
    MkTable {
        present,
        permanent,
        locked,
    }
}
