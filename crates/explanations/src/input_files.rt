//! The files of a run's inputs, as an explanation names them.

ghost use Rattle.std.specs.Prelude.{◌≡◌, option_map};
ghost use Rattle.explanations.specs.ArgumentLines.{file_at, names_in};

/// The name of the file of the input with this number, counted from 1.
pub(crate) fn file_at<'a>(files: &[&'a str], number: i32) -> Option<&'a str>
    ensures { option_map (λ file. file.now) result ≡ file_at (names_in files.now) number }
{
    let number = usize::try_from(number).ok()?;
    let place = number.checked_sub(1)?;
    files.get(place).copied()
}
