// What holds of the lines of a script.
ghost use Rattle.scripts.specs.Lines.{OneRequest};

// No line says two requests.
pub fn no_line_says_two_requests()
    ensures { OneRequest }
{}
