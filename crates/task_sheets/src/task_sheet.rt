ghost use Rattle.std.specs.Prelude.{◌≡◌, true, is_ok};
ghost use Rattle.std.specs.Option.{ForSome};
ghost use Rattle.task_sheets.specs.Layout.{task_verdict};

mod opening;
mod questions;

// A task that is read from the bytes of the sheet that was opened, if one was; they are lent and not copied.
#[derive(Drop)]
pub struct TaskSheet<'a> {
    opened: Option<&'a [u8]>,
    ghost passes: { ForSome opened (λ bytes. is_ok (task_verdict bytes.now) ≡ true) },
}
