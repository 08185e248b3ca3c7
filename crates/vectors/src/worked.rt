// Packets that are printed elsewhere, in docs/PROTOCOL.md (§) and in the SSI Programmer's Guide (72E-40451-03), one to a line: bytes,
// opcode, source, status, number of data bytes.
// All are plain numbers, so that no name of the library can be wrong on both sides.
use crate::tally::Tally;
use crate::trials::{Fields, answered, front, tried};
use packet::Reply;

// A packet, and what the check finds in it.
#[derive(Clone, Copy)]
struct Row {
    bytes: &'static [u8],
    fields: Fields,
    n: usize,
}

macro_rules! row {
    ($bytes:literal => $opcode:literal $source:literal $status:literal, $n:literal) => {
        Row {
            bytes: $bytes,
            fields: Fields {
                opcode: $opcode,
                source: $source,
                status: $status,
            },
            n: $n,
        }
    };
}

pub(crate) fn packets(rt: &impl Print, t: &mut Tally) {
    built(rt, t, &CASES);
    answers(rt, t);
    built(rt, t, &REQUESTS);
    // h, as printed, without its last byte
    front(rt, t, b"\x06\xC7\x04\x80\xF1\x15\xFD", Some(3));
    for row in UNBUILT {
        tried(rt, t, row.bytes, row.fields, row.n, Err(5));
    }
    built(rt, t, &REPLIES);
    built(rt, t, &HOUSE);
    built(rt, t, &OTHERS);
}

// The check finds these packets, and building gives them again.
fn built(rt: &impl Print, t: &mut Tally, rows: &[Row]) {
    for row in rows {
        tried(rt, t, row.bytes, row.fields, row.n, Ok(row.bytes));
    }
}

// §17, the ten cases, by their numbers; the copy is the second packet of §16's hub listing.
const CASES: [Row; 10] = [
    row!(b"\x04\xD0\x04\x00\xFF\x28" => 0xD0 4 0, 0), // 1
    row!(b"\x04\xD0\x00\x00\xFF\x2C" => 0xD0 0 0, 0), // 2
    row!(b"\x05\xD1\x04\x00\x01\xFF\x25" => 0xD1 4 0, 1), // 3
    row!(b"\x05\xD1\x00\x00\x06\xFF\x24" => 0xD1 0 0, 1), // 4
    row!(b"\x06\xF3\x00\x00\x1B\x38\xFE\xB4" => 0xF3 0 0, 2), // 5
    row!(b"\x06\xF3\x00\x01\x1B\x38\xFE\xB3" => 0xF3 0 1, 2), // 5, the marked copy
    row!(b"\x05\xF3\x00\x00\x1B\xFE\xED" => 0xF3 0 0, 1), // 6
    row!(b"\x07\xC6\x04\x00\xFF\x8A\x08\xFD\x9E" => 0xC6 4 0, 3), // 7
    row!(b"\x05\xC7\x04\x00\x8A\xFE\xA6" => 0xC7 4 0, 1), // 8
    row!(b"\x07\xC6\x00\x00\xFF\x8A\x08\xFD\xA2" => 0xC6 0 0, 3), // 8, its answer
];

// CMD_ACK and CMD_NAK as `packet::answer` writes them: cases 1 to 4, and the other causes of both sides.
fn answers(rt: &impl Print, t: &mut Tally) {
    answered(rt, t, b"\x04\xD0\x04\x00\xFF\x28", 4, Reply::Ack);
    answered(rt, t, b"\x04\xD0\x00\x00\xFF\x2C", 0, Reply::Ack);
    answered(rt, t, b"\x05\xD1\x04\x00\x01\xFF\x25", 4, Reply::Nak(1));
    answered(rt, t, b"\x05\xD1\x04\x00\x02\xFF\x24", 4, Reply::Nak(2));
    answered(rt, t, b"\x05\xD1\x04\x00\x06\xFF\x20", 4, Reply::Nak(6));
    answered(rt, t, b"\x05\xD1\x00\x00\x01\xFF\x29", 0, Reply::Nak(1));
    answered(rt, t, b"\x05\xD1\x00\x00\x02\xFF\x28", 0, Reply::Nak(2));
    answered(rt, t, b"\x05\xD1\x00\x00\x06\xFF\x24", 0, Reply::Nak(6));
}

// PARAM_REQUESTs of the guide's Table 2-68, by their place in it.
const REQUESTS: [Row; 7] = [
    row!(b"\x05\xC7\x04\x00\xFE\xFE\x32" => 0xC7 4 0, 1), // a
    row!(b"\x06\xC7\x04\x00\x01\x9C\xFE\x92" => 0xC7 4 0, 2), // b
    row!(b"\x07\xC7\x04\x00\xFE\x01\x9C\xFD\x93" => 0xC7 4 0, 3), // c
    row!(b"\x07\xC7\x04\x00\x01\x9C\xFE\xFD\x93" => 0xC7 4 0, 3), // d
    row!(b"\x05\xC7\x04\x00\x04\xFF\x2C" => 0xC7 4 0, 1), // e
    row!(b"\x07\xC7\x04\x00\xFE\xFE\xFE\xFC\x34" => 0xC7 4 0, 3), // f
    row!(b"\x07\xC7\x04\x00\x01\x01\x01\xFF\x2B" => 0xC7 4 0, 3), // g
];

// The other requests of the table have status 80h, which the check doesn't judge and building refuses.
const UNBUILT: [Row; 3] = [
    row!(b"\x06\xC7\x04\x80\xF1\x15\xFD\xA9" => 0xC7 4 0x80, 2), // h, whole
    row!(b"\x06\xC7\x04\x80\xF0\x3E\xFD\x81" => 0xC7 4 0x80, 2), // i
    row!(b"\x07\xC7\x04\x80\xF8\x04\x5E\xFD\x54" => 0xC7 4 0x80, 3), // j
];

// The PARAM_SENDs that answer them there; c and f are answered as a, d as b.
const REPLIES: [Row; 7] = [
    row!(b"\x0D\xC6\x00\x00\xFF\x01\x00\x02\x01\x9C\x07\xE6\x63\xFC\x3E" => 0xC6 0 0, 9), // a
    row!(b"\x09\xC6\x00\x00\xFF\x01\x00\x9C\x07\xFD\x8E" => 0xC6 0 0, 5), // b
    row!(b"\x05\xC6\x00\x00\xFF\xFE\x36" => 0xC6 0 0, 1), // e
    row!(b"\x0B\xC6\x00\x00\xFF\x01\x00\x01\x00\x01\x00\xFE\x2D" => 0xC6 0 0, 7), // g
    row!(b"\x1D\xC6\x00\x00\xFF\xF7\xF1\x15\x12\x00\x00\x44\x53\x34\x33\x30\x38\x2D\x53\x52\x30\x30\x30\x30\x37\x5A\x5A\x57\x57\xF7\x7E" => 0xC6 0 0, 25), // h
    row!(b"\x0A\xC6\x00\x00\xFF\xF4\xF0\x3E\x04\xFF\xFB\x0C" => 0xC6 0 0, 6), // i
    row!(b"\x0B\xC6\x00\x00\xFF\xF4\xF8\x04\x5E\x00\x00\xFB\xE2" => 0xC6 0 0, 7), // j
];

// Answers with the nine parameters of §12, and the DECODE_DATA of the guide's Tables 2-35 and 2-36.
const HOUSE: [Row; 4] = [
    row!(b"\x17\xC6\x00\x00\xFF\x80\x00\x89\x0A\x8A\x00\x9B\x14\x9C\x06\x9E\x04\x9F\x01\xED\x00\xEE\x01\xF8\x18" => 0xC6 0 0, 19), // a
    row!(b"\x07\xC6\x00\x00\xFF\x9C\x06\xFD\x92" => 0xC6 0 0, 3), // b
    row!(b"\x07\xC6\x00\x00\xFF\x9C\x07\xFD\x91" => 0xC6 0 0, 3), // b, with 9Ch set to 7
    row!(b"\x14\xF3\x00\x00\x99\x1A\x02\x00\x00\x03\x41\x42\x43\x00\x00\x04\x44\x45\x46\x47\xFC\x61" => 0xF3 0 0, 16), // type 99h
];

// One packet of each other command, and the causes of NAK that the cases leave out.
const OTHERS: [Row; 16] = [
    row!(b"\x05\xD1\x04\x00\x02\xFF\x24" => 0xD1 4 0, 1), // NAK 2, hub
    row!(b"\x05\xD1\x04\x00\x06\xFF\x20" => 0xD1 4 0, 1), // NAK 6, hub
    row!(b"\x05\xD1\x00\x00\x01\xFF\x29" => 0xD1 0 0, 1), // NAK 1, reader
    row!(b"\x05\xD1\x00\x00\x02\xFF\x28" => 0xD1 0 0, 1), // NAK 2, reader
    row!(b"\x04\xC4\x04\x00\xFF\x34" => 0xC4 4 0, 0), // AIM_OFF
    row!(b"\x04\xC5\x04\x00\xFF\x33" => 0xC5 4 0, 0), // AIM_ON
    row!(b"\x04\xC8\x04\x00\xFF\x30" => 0xC8 4 0, 0), // PARAM_DEFAULTS
    row!(b"\x04\xE4\x04\x00\xFF\x14" => 0xE4 4 0, 0), // START_SESSION
    row!(b"\x04\xE5\x04\x00\xFF\x13" => 0xE5 4 0, 0), // STOP_SESSION
    row!(b"\x04\xE9\x04\x00\xFF\x0F" => 0xE9 4 0, 0), // SCAN_ENABLE
    row!(b"\x04\xEA\x04\x00\xFF\x0E" => 0xEA 4 0, 0), // SCAN_DISABLE
    row!(b"\x05\xE7\x04\x00\x01\xFF\x0F" => 0xE7 4 0, 1), // LED_ON
    row!(b"\x05\xE8\x04\x00\x01\xFF\x0E" => 0xE8 4 0, 1), // LED_OFF
    row!(b"\x05\xE6\x04\x00\x1A\xFE\xF7" => 0xE6 4 0, 1), // BEEP 1Ah
    row!(b"\x05\xE6\x04\x00\x1B\xFE\xF6" => 0xE6 4 0, 1), // BEEP 1Bh
    row!(b"\x05\xE6\x04\x00\x1C\xFE\xF5" => 0xE6 4 0, 1), // BEEP 1Ch
];
