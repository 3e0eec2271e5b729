ghost use Rattle.std.specs.Prelude.{◌≡◌, true};
ghost use Rattle.task_sheets.specs.Layout.{fits};

mod turns;

// The levels of a task sheet, visited in turn where they lie in it. The numbers are a place in the sheet and how many
// levels are left, no length of the bytes.
#[derive(Drop)]
pub struct Levels<'a> {
    bytes: &'a [u8],
    at: usize,
    left: usize,
    ghost room: { fits bytes.now at left ≡ true },
}
