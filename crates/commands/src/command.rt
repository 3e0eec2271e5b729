// A file to write, and whether one that is there may be replaced.
#[derive(Clone, Copy)]
pub struct Output<'a> {
    pub file: &'a str,
    pub replace: bool,
}

// What the program can be asked for.
#[derive(Clone, Copy)]
pub enum Command<'a> {
    // list the plan's places
    List,
    // write the sheet of a rack's step book
    Rack {
        loggers: usize,
        baths: usize,
        output: Output<'a>,
    },
    // check the plan
    Check,
    // write the sheet of the recast plan
    Recast(Output<'a>),
    // carry a crew's script out
    Run,
    // say what a refusal means
    Explain(usize),
    // say what can be asked for
    Help,
}
