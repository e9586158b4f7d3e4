//! The lines of a script.

ghost use Rattle.std.specs.Prelude.{◌≡◌, ◌==◌, ◌≤◌, ◌∷◌, length, position};
ghost use Rattle.std.specs.Option.{option_copied};
ghost use Rattle.std.specs.Str.Lines.{strip_carriage_return};
ghost use Rattle.script_runs.specs.Meaning.{lines_of};
ghost use Rattle.script_runs.specs.LinesLeft.{lines_left, bytes_left};

fn first_line_feed(script: &[u8]) -> Option<usize>
    ensures { result ≡ position (λ b. b == 10) script.now }
{
    script.iter().position(|b| *b == b'\n')
}

/// The line without the one carriage return at its end, if it has one.
fn without_carriage_return(line: &[u8]) -> &[u8]
    ensures { result.now ≡ strip_carriage_return line.now }
{
    match line.split_last() {
        Some((b'\r', front)) => front,
        _ => line,
    }
}

/// The first line of a script, and what follows its line feed, if it has one.
pub fn next_line(script: &[u8]) -> (&[u8], Option<&[u8]>)
    ensures lines { lines_of script.now ≡ result.0.now ∷ lines_left (option_copied result.1) }
    ensures shorter { bytes_left (option_copied result.1) ≤ length script.now }
{
    match first_line_feed(script) {
        None => (without_carriage_return(script), None),
        Some(at) => {
            let (line, _) = script.split_at(at);
            let (_, others) = script.split_at(at + 1);
            (without_carriage_return(line), Some(others))
        }
    }
}
