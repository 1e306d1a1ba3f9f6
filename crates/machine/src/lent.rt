// The instructions that go to memory and to the table, through the heap's functions.
ghost use Rattle.std.specs.Prelude.{◌≡◌, ◌+◌, ◌<◌, slice_index};
ghost use Rattle.memory.specs.Memory.{every_byte, has_color};
ghost use Rattle.memory.specs.Lent.{within, loaded, stored};
ghost use Rattle.heap.specs.Lent.{allocated};
ghost use Rattle.machine.specs.Colors.{color_of_object};
ghost use Rattle.machine.specs.State.{temp};
ghost use Rattle.machine.specs.Turn.{Counts, Low, reason_of, load_turn, load_temps, store_turn, check_turn};
ghost use Rattle.machine.specs.Turn.{alloc_turn, alloc_temps, release_turn, free_at};

use super::progress::{Progress, Turn};
use super::temps::{becomes, value};
use heap::HeapError;
use memory::widths::Width;
use opcodes::Object;
use stops::Reason;

// The start of an object; one that is not there has 0.
pub(crate) fn start_of(starts: &[u32], g: u16) -> u32
    ensures { result ≡ slice_index starts.now g }
{
    starts.get(g as usize).copied().unwrap_or(0)
}

// Byte k of an object.
pub(crate) fn byte_of(starts: &[u32], g: u16, k: u16) -> u32
    requires { Low starts.now }
    ensures { result ≡ slice_index starts.now g + k }
{
    start_of(starts, g) + (k as u32)
}

// The color of an object; one that is not there has 0.
fn color_of(objects: &[Object], g: u16) -> u8
    ensures { result ≡ color_of_object objects.now g }
{
    objects.get(g as usize).map_or(0, |o| o.color)
}

// Why the heap's answer stops a run. Memory and table have their exact lengths in a run.
fn reason_of(why: HeapError) -> Reason
    ensures { result ≡ reason_of why }
{
    match why {
        HeapError::WrongLength => Reason::Unsound,
        HeapError::Unsound => Reason::Unsound,
        HeapError::BadAddress => Reason::BadFree,
    }
}

// LOAD8 and LOAD32: d becomes the number at an address.
pub(crate) fn load<W: Width>(
    memory: &[u8],
    temps: &mut [u32; 16],
    from: Progress,
    d: u8,
    address: u32,
) -> Turn
    requires { (Counts from) × (d < 16) }
    ensures value { result ≡ load_turn from (loaded W.bytes memory.now address) }
    ensures temps_after { temps.new ≡ load_temps temps.old d (loaded W.bytes memory.now address) }
{
    let number = memory::bytes::load::<W>(memory, address).ok_or(Reason::ReadOutside)?;
    becomes(from, d, number, temps)
}

// The low bytes of a number are written from an address on.
pub(crate) fn store<W: Width>(memory: &mut [u8], from: Progress, address: u32, number: u32) -> Turn
    requires { Counts from }
    ensures value { result ≡ store_turn from (within W.bytes memory.old address) }
    ensures memory_after { memory.new ≡ stored W.bytes memory.old address number }
{
    if memory::bytes::store::<W>(memory, address, number) {
        return from.completed();
    }
    Err(Reason::StoreOutside)
}

// A check that the table allows passes, and costs no step.
pub(crate) fn check<W: Width>(table: &[u8], from: Progress, address: u32, color: u8) -> Turn
    requires { Counts from }
    ensures { result ≡ check_turn from (every_byte W.bytes (has_color table.now color) address) }
{
    if memory::colors::check::<W>(table, address, color) {
        return from.passed();
    }
    Err(Reason::Forbidden)
}

// ALLOC: a bytes for heap site g; d becomes the address, or 0.
pub(crate) fn alloc(
    memory: &mut [u8],
    table: &mut [u8],
    objects: &[Object],
    temps: &mut [u32; 16],
    from: Progress,
    d: u8,
    g: u16,
    a: u8,
) -> Turn
    requires { (Counts from) × (d < 16) × (a < 16) }
    ensures value { result ≡ alloc_turn from (allocated memory.old table.old (temp temps.old a) g (color_of_object objects.now g)).answer }
    ensures temps_after { temps.new ≡ alloc_temps temps.old d (allocated memory.old table.old (temp temps.old a) g (color_of_object objects.now g)).answer }
    ensures memory_after { memory.new ≡ (allocated memory.old table.old (temp temps.old a) g (color_of_object objects.now g)).memory }
    ensures table_after { table.new ≡ (allocated memory.old table.old (temp temps.old a) g (color_of_object objects.now g)).table }
{
    let size = value(temps, a);
    let body = heap::making::alloc(memory, table, size, g, color_of(objects, g)).map_err(
        reason_of,
    )?;
    becomes(from, d, body.unwrap_or(0), temps)
}

// FREE: an address that is not 0 is given back.
pub(crate) fn free(memory: &mut [u8], table: &mut [u8], from: Progress, address: u32) -> Turn
    requires { Counts from }
    ensures value { result ≡ release_turn from (free_at memory.old table.old address).answer }
    ensures memory_after { memory.new ≡ (free_at memory.old table.old address).memory }
    ensures table_after { table.new ≡ (free_at memory.old table.old address).table }
{
    if address != 0 {
        heap::freeing::free(memory, table, address).map_err(reason_of)?;
    }
    from.completed()
}
