// The reader's commands: which opcode names which, the data that each takes, its beeps, and what it does to the device.
#![tactic(auto)]

ghost use Rattle.std.specs.Prelude.{◌%◌, ◌≡◌, length};
ghost use Rattle.commands.specs.Commands.{judged, effect, send_command, beep_command};
ghost use Rattle.commands.specs.Promises.{Names, LengthAllowed, Commands, Fit, SendBeepAllowed, Reports, StartsSession, Scans, Lights, device_of};

use packet::Refusal;
use table::Table;

// A row of §13 as it is reported: specs/Beeps.antt says what the numbers mean.
#[derive(Clone, Copy)]
pub struct Beep {
    pub duration: u8,
    pub pitch: u8,
    pub count: u8,
}

// A row on one line, as §13 has it.
macro_rules! beep {
    ($duration:literal, $pitch:literal, $count:literal) => {
        Beep {
            duration: $duration,
            pitch: $pitch,
            count: $count,
        }
    };
}

// §13: duration, pitch and number of beeps of each code.
const BEEPS: [Beep; 30] = [
    beep!(0, 0, 1),
    beep!(0, 0, 2),
    beep!(0, 0, 3),
    beep!(0, 0, 4),
    beep!(0, 0, 5),
    beep!(0, 1, 1),
    beep!(0, 1, 2),
    beep!(0, 1, 3),
    beep!(0, 1, 4),
    beep!(0, 1, 5),
    beep!(1, 0, 1),
    beep!(1, 0, 2),
    beep!(1, 0, 3),
    beep!(1, 0, 4),
    beep!(1, 0, 5),
    beep!(1, 1, 1),
    beep!(1, 1, 2),
    beep!(1, 1, 3),
    beep!(1, 1, 4),
    beep!(1, 1, 5),
    beep!(2, 2, 4),
    beep!(3, 2, 4),
    beep!(4, 3, 2),
    beep!(5, 4, 2),
    beep!(6, 5, 3),
    beep!(7, 6, 3),
    beep!(1, 7, 4),
    beep!(0, 8, 13),
    beep!(8, 0, 1),
    beep!(9, 9, 1),
];
// The highest code that is allowed.
const BEEP_LIMIT: u8 = 0x1D;

// What the commands switch on and off: four flags in this order, as the control bytes of the C interface have them.
#[derive(Clone, Copy)]
pub struct Switches {
    pub scanning: bool,
    pub session: bool,
    pub aim: bool,
    pub led: bool,
}

// What the commands change.
#[derive(Clone, Copy)]
pub struct Device {
    pub table: Table,
    pub switches: Switches,
}

#[derive(Clone, Copy)]
pub enum Command {
    ParamSend,
    ParamRequest,
    ParamDefaults,
    StartSession,
    StopSession,
    Beep,
    LedOn,
    LedOff,
    ScanEnable,
    ScanDisable,
    AimOn,
    AimOff,
}

// What a command that was acted on left: the device afterwards, and the row of beeps that is reported, if one is.
#[derive(Clone, Copy)]
pub struct Acted {
    pub device: Device,
    pub beep: Option<Beep>,
}

// The command that an opcode names, if it is one.
pub fn named_by(opcode: u8) -> Option<Command>
    ensures { Names opcode result }
{
    match opcode {
        packet::PARAM_SEND => Some(Command::ParamSend),
        packet::PARAM_REQUEST => Some(Command::ParamRequest),
        packet::PARAM_DEFAULTS => Some(Command::ParamDefaults),
        packet::START_SESSION => Some(Command::StartSession),
        packet::STOP_SESSION => Some(Command::StopSession),
        packet::BEEP => Some(Command::Beep),
        packet::LED_ON => Some(Command::LedOn),
        packet::LED_OFF => Some(Command::LedOff),
        packet::SCAN_ENABLE => Some(Command::ScanEnable),
        packet::SCAN_DISABLE => Some(Command::ScanDisable),
        packet::AIM_ON => Some(Command::AimOn),
        packet::AIM_OFF => Some(Command::AimOff),
        _ => None,
    }
}

// Whether the data has a length that the command takes.
pub fn length_allowed(command: Command, data: &[u8]) -> bool
    ensures { LengthAllowed command «data».now result }
{
    match command {
        Command::ParamSend => table::send_length_allowed(data),
        Command::ParamRequest => table::request_length_allowed(data),
        Command::Beep | Command::LedOn | Command::LedOff => data.len() == 1,
        Command::ParamDefaults
        | Command::StartSession
        | Command::StopSession
        | Command::ScanEnable
        | Command::ScanDisable
        | Command::AimOn
        | Command::AimOff => data.is_empty(),
    }
}

// What a command does to the device, or why it is denied: 7, then 8 and 9. It goes by value, so what is denied changes nothing.
pub fn act(device: Device, command: Command, status: u8, data: &[u8]) -> Result<Acted, Refusal>
    ensures { Commands (judged (device_of device) command status «data».now) result }
{
    if !length_allowed(command, data) {
        return Err(Refusal::Data);
    }
    act_on(device, command, status, data)
}

fn act_on(device: Device, command: Command, status: u8, data: &[u8]) -> Result<Acted, Refusal>
    requires { Fit command «data».now }
    ensures { Commands (effect (device_of device) command status «data».now) result }
{
    let switches = device.switches;
    // What changes the table returns by itself; the others change the switches, or nothing.
    let switches = match command {
        Command::ParamSend => return send(device, status, data),
        Command::Beep => return beep_command(device, data[0]),
        Command::ParamDefaults => {
            let table = table::set_defaults(device.table);
            return Ok(Acted {
                device: Device { table, switches },
                beep: None,
            });
        }
        Command::ParamRequest => switches,
        Command::StartSession => start_session(switches),
        Command::StopSession => Switches {
            session: false,
            ..switches
        },
        Command::LedOn => light(switches, true, data[0]),
        Command::LedOff => light(switches, false, data[0]),
        Command::ScanEnable => scan(switches, true),
        Command::ScanDisable => scan(switches, false),
        Command::AimOn => Switches {
            aim: true,
            ..switches
        },
        Command::AimOff => Switches {
            aim: false,
            ..switches
        },
    };
    Ok(Acted {
        device: Device { switches, ..device },
        beep: None,
    })
}

// PARAM_SEND: a beep byte, then pairs, all or nothing.
fn send(device: Device, status: u8, data: &[u8]) -> Result<Acted, Refusal>
    requires { length «data».now % 2 ≡ 1 }
    ensures { Commands (send_command (device_of device) status «data».now) result }
{
    let code = data[0];
    if !send_beep_allowed(code) {
        return Err(Refusal::Beep);
    }
    let table = table::set(device.table, &data[1..], status / 8 % 2 == 1)?;
    Ok(Acted {
        device: Device { table, ..device },
        beep: report(code),
    })
}

// BEEP reports the row of its code.
fn beep_command(device: Device, code: u8) -> Result<Acted, Refusal>
    ensures { Commands (beep_command (device_of device) code) result }
{
    let beep = report(code).ok_or(Refusal::Beep)?;
    Ok(Acted {
        device,
        beep: Some(beep),
    })
}

// START_SESSION while scanning is disabled starts none; a session that is on stays on.
fn start_session(switches: Switches) -> Switches
    ensures { StartsSession switches result }
{
    Switches {
        session: switches.session || switches.scanning,
        ..switches
    }
}

// SCAN_DISABLE ends a session.
fn scan(switches: Switches, on: bool) -> Switches
    ensures { Scans switches on result }
{
    Switches {
        scanning: on,
        session: on && switches.session,
        ..switches
    }
}

// LED looks at bit 0 only.
fn light(switches: Switches, on: bool, bits: u8) -> Switches
    ensures { Lights switches on bits result }
{
    if bits % 2 == 0 {
        return switches;
    }
    Switches {
        led: on,
        ..switches
    }
}

// In PARAM_SEND FFh is allowed too: no beep.
fn send_beep_allowed(code: u8) -> bool
    ensures { SendBeepAllowed code result }
{
    code == 0xFF || code <= BEEP_LIMIT
}

// The row of an allowed code.
fn report(code: u8) -> Option<Beep>
    ensures { Reports code result }
{
    if code > BEEP_LIMIT {
        return None;
    }
    Some(BEEPS[usize::from(code)])
}
