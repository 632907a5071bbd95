// A panel file: 106 bytes, as docs/TRACE.md lays them out.
ghost use Rattle.std.specs.Prelude.{◌≡◌, ◌+◌, ◌≤◌, ◌==◌, Some, None, nat_lt, slice_range};
ghost use Rattle.laws.specs.Pick.{pick};
ghost use Rattle.trace.specs.PanelFile.{address_in, bits_fit, bool_of, file_panel, fits_in, half_holds, half_in, panel_told, registers_in, width_of};

use chip::address::{Address, DisplayAddress, PatternAddress};
use chip::registers::Registers;
use chip::sheet::Sheet;
use mirror::half::Half;
use mirror::panel::{Panel, Times};

const PANEL_SIZE: usize = 106;

// Why a file holds no panel: another number of bytes, or a byte that no panel has.
#[derive(Clone, Copy, PartialEq, Eq)]
pub(crate) enum Misfit {
    Size,
    Byte,
}

// The bytes of a field, from a place on.
fn field<const N: usize>(bytes: &[u8; PANEL_SIZE], at: usize) -> [u8; N]
    requires { at + N ≤ 106 }
    ensures { result ≡ slice_range bytes.now at (at + N) }
{
    <[u8; N]>::try_from(&bytes[at..at + N]).unwrap()
}

// A bool is 0 or 1.
fn bool_of(byte: u8) -> Option<bool>
    ensures { result ≡ bool_of byte }
{
    match byte {
        0 => Some(false),
        1 => Some(true),
        _ => None,
    }
}

// The width is 8 or 4: whether it is 8.
fn width_of(byte: u8) -> Option<bool>
    ensures { result ≡ width_of byte }
{
    match byte {
        8 => Some(true),
        4 => Some(false),
        _ => None,
    }
}

// No field where no half waits, no nibble where it is ignored.
fn half_of(kind: u8, rs: u8, rw: u8, nibble: u8) -> Option<Half>
    ensures { result ≡ pick (half_holds kind rs rw nibble) (Some (half_in kind (rs == 1) (rw == 1) nibble)) None }
{
    match (kind, rs, rw, nibble) {
        (0, 0, 0, 0) => Some(Half::Empty),
        (1, _, _, 0) => Some(Half::Ignored {
            rs: bool_of(rs)?,
            rw: bool_of(rw)?,
        }),
        (2, _, _, _) => Some(Half::Waiting {
            rs: bool_of(rs)?,
            rw: bool_of(rw)?,
            nibble,
        }),
        _ => None,
    }
}

// The counter's memory is 0, display, or 1, pattern.
fn address_of(memory: u8, number: u8) -> Option<Address>
    ensures { result ≡ pick (nat_lt memory 2) (Some (address_in memory number)) None }
{
    match memory {
        0 => Some(Address::Display(DisplayAddress(number))),
        1 => Some(Address::Pattern(PatternAddress(number))),
        _ => None,
    }
}

fn registers_of(bytes: &[u8; PANEL_SIZE]) -> Option<Registers>
    ensures { result ≡ pick (bits_fit bytes.now) (Some (registers_in bytes.now)) None }
{
    Some(Registers {
        chip: bytes[0],
        address: address_of(bytes[65], bytes[66])?,
        shift: bytes[67],
        up: bool_of(bytes[68])?,
        follow: bool_of(bytes[69])?,
        on: bool_of(bytes[70])?,
        cursor: bool_of(bytes[71])?,
        blink: bool_of(bytes[72])?,
        eight: width_of(bytes[73])?,
        function: bytes[74],
        good: bool_of(bytes[101])?,
        written: u32::from_le_bytes(field(bytes, 102)),
    })
}

// The panel that the bytes hold, sound or not.
fn panel_of(bytes: &[u8; PANEL_SIZE]) -> Option<Panel>
    ensures { result ≡ pick (fits_in bytes.now) (Some (file_panel bytes.now)) None }
{
    Some(Panel {
        sheet: Sheet {
            registers: registers_of(bytes)?,
            display: field(bytes, 1),
            pattern: field(bytes, 33),
        },
        busy: u64::from_le_bytes(field(bytes, 81)),
        half: half_of(bytes[97], bytes[98], bytes[99], bytes[100])?,
        times: Times {
            reset: u16::from_le_bytes(field(bytes, 75)),
            long: u16::from_le_bytes(field(bytes, 77)),
            short: u16::from_le_bytes(field(bytes, 79)),
        },
        last: u64::from_le_bytes(field(bytes, 89)),
    })
}

// The panel that a file holds, sound or not.
pub(crate) fn panel_told(file: &[u8]) -> Result<Panel, Misfit>
    ensures { result ≡ panel_told file.now }
{
    match <&[u8; PANEL_SIZE]>::try_from(file) {
        Ok(bytes) => panel_of(bytes).ok_or(Misfit::Byte),
        Err(_) => Err(Misfit::Size),
    }
}
