// What each refusal means, and what can be asked for.
ghost use Rattle.commands.specs.Meanings.{Explained};

// What the refusal with that number means, its number first; none where there is no such refusal.
// A match on a number, since it is the number that a user types: no fault of one crate has all twenty refusals.
pub fn explain(number: usize) -> Option<&'static str>
    ensures { Explained number result }
{
    match number {
        1 => Some(
            "1: the sheet ends before or inside a field; the byte named is the sheet's length",
        ),
        2 => Some("2: a count or a time is above its limit; the byte named is the field's first"),
        3 => Some(
            "3: an offset is not where its part begins; the byte named is the offset field's first",
        ),
        4 => Some(
            "4: a fact or a step is not below the number of facts or steps; the byte named is the entry's first",
        ),
        5 => Some(
            "5: a number is not above the one before it in its list; the byte named is the entry's first",
        ),
        6 => Some(
            "6: a step deletes a fact that it adds; the byte named is the delete entry's first",
        ),
        7 => Some("7: a level has no steps; the byte named is the level's count"),
        8 => Some(
            "8: the levels have more or fewer steps than the header says; the byte named is the level's count, or 6",
        ),
        9 => Some("9: bytes follow the last field; the byte named is the first of them"),
        10 => Some("10: the task speaks of another number of facts or steps than the book"),
        11 => Some(
            "11: a step lacks a fact that it needs as its level starts; another step of the same level does not help",
        ),
        12 => Some(
            "12: the steps of a level have no order in which none takes anything away from another",
        ),
        13 => Some("13: a goal fact is missing at the end; the smallest is named"),
        14 => Some("14: a step of the card is in hand, so no other plan can be issued on it"),
        15 => Some("15: the board has no room for all facts of the task"),
        16 => Some("16: the card has no such place"),
        17 => Some(
            "17: a place to begin is not waiting, or one to finish or put back is not in hand",
        ),
        18 => Some("18: a place that comes before is not finished; the lowest is named"),
        19 => Some(
            "19: a sheet is above 65,536 bytes, or a buffer is too short; a buffer's needed length is named",
        ),
        20 => Some(
            "20: a rack has no logger, no bath, or more than 128 pairs of a logger and a bath",
        ),
        _ => None,
    }
}

// What can be asked for.
pub fn help() -> &'static str {
    "benchplan                            list the plan of book.bin and task.bin, or the refusal
benchplan rack R B FILE [replace]    write the step book of R loggers and B baths
benchplan check                      check the plan: the facts at its end, or the refusal
benchplan recast FILE [replace]      write the task whose levels are the plan's strata
benchplan run                        carry out a script from standard input, a line for each answer
benchplan explain N                  say what refusal N means
benchplan help                       say this
A file that is there is kept unless the word replace is said."
}
