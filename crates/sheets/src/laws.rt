// The laws of what sheets are made of: each function asks for the proof of the theorem that its contract names.
ghost use Rattle.sheets.specs.Laws.{FieldLaws, FirstStands, ListLaws, WriteLaws};

// The bytes of a number say it, and bytes are those of the number that they say.
pub fn fields_say_their_numbers()
    ensures { FieldLaws }
{}

// Of parts read in turn, the first that is refused gives its refusal.
pub fn the_first_refusal_stands()
    ensures { FirstStands }
{}

// A list passes exactly where it ascends.
pub fn lists_that_pass_ascend()
    ensures { ListLaws }
{}

// What is written stands where it is written, and no other byte changes.
pub fn no_other_byte_is_written()
    ensures { WriteLaws }
{}
