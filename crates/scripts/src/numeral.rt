ghost use Rattle.scripts.specs.Lines.{Reads};
// What a text of digits says.

// The number that the text writes in digits alone; none where it has no digit, any other character, or does not fit.
pub fn number(text: &str) -> Option<usize>
    ensures { Reads text.now result }
{
    if text.starts_with('+') {
        return None;
    }
    text.parse::<usize>().ok()
}
