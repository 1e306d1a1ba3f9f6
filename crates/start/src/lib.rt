// The start of a run: memory and table are cleared and laid out.
#![tactic(auto)]

ghost use Rattle.std.specs.Prelude.{◌≡◌};
ghost use Rattle.start.specs.Held.{paint_one, laid_table, laid_start};

use files::Objects;
use layout::Layout;
use opcodes::Object;
use opcodes::extent::extent_of;

// What laying out answers: whether the globals end at or below 28,672, and where each object starts; 0 for
// those that are not there. No Option: the starts are promised also where they do not fit.
#[derive(Clone, Copy)]
pub struct Laid {
    pub fits: bool,
    pub starts: [u32; 400],
}

// The slots of a global get its color.
fn paint_one(table: &mut [u8], start: u32, object: Object)
    ensures { table.new ≡ paint_one table.old start object }
{
    if object.kind == 0 {
        let extent = extent_of(object.size as u32) as u32;
        memory::colors::paint(table, start, extent, object.color);
    }
}

// The table at the start: all 0, the globals' slots, the first header, the end slot.
#[tactic(auto, unfolding(crate::specs::Held::laid_table))]
fn lay_table(table: &mut [u8], starts: &[u32; 400], objects: &Objects)
    ensures { table.new ≡ laid_table starts.now objects.now table.old }
{
    memory::bytes::fill(table, 0);
    let count = objects.count.min(400);
    let named = &objects.list[..count];
    for (start, object) in starts.iter().zip(named) {
        paint_one(table, *start, *object);
    }
    memory::colors::paint(table, 28672, 8, 1);
    memory::colors::paint(table, 57336, 8, 1);
}

// Clears memory and table and lays them out for the objects of a file: the first so many of the list, at
// most 400. Globals that end above 28,672 change nothing.
#[tactic(auto, unfolding(crate::specs::Held::laid_start))]
pub fn lay(objects: &Objects, memory: &mut [u8], table: &mut [u8]) -> Laid
    ensures value { result ≡ (laid_start objects.now memory.old table.old).answer }
    ensures memory_after { memory.new ≡ (laid_start objects.now memory.old table.old).memory }
    ensures table_after { table.new ≡ (laid_start objects.now memory.old table.old).table }
{
    let Layout { starts, end } = layout::lay_out(objects);
    let fits = end <= 28672;
    if fits {
        heap::headers::start(memory);
        lay_table(table, &starts, objects);
    }
    Laid { fits, starts }
}
