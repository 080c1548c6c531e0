// The words of the lines that are no kind, layer or number.
ghost use Rattle.std.specs.Prelude.{◌≡◌};
ghost use Rattle.report.specs.Texts.{duty_word, opened_text};

// The word that says whether a duty is open. A function, since a bool has words of its own to print.
pub fn duty_name(duty: bool) -> &'static str
    ensures { result.now ≡ duty_word duty }
{
    if duty { "open" } else { "none" }
}

// The line of a job that was opened.
pub fn opened_line() -> &'static str
    ensures { result.now ≡ opened_text }
{
    "opened\n"
}
