// The settings, and a span in which checks are off.
ghost use Rattle.std.specs.Prelude.{◌≡◌, true, false, length, Ok};
ghost use Rattle.std.specs.List.{list_all};
ghost use Rattle.form.specs.Refusals.{told, only_if};

use crate::fault::Fault;
use std::mem;

#[derive(Clone, Copy)]
pub struct Settings {
    // whether decoding tests what it undoes
    pub checks: bool,
}

impl Settings {
    pub fn new() -> Settings
        ensures { result.checks ≡ true }
    {
        Settings { checks: true }
    }
}

// Turns checks off while it lives, and on its end restores the earlier flag.
pub struct LenientSpan<'a> {
    settings: &'a mut Settings,
    earlier: bool,
}

impl<'a> LenientSpan<'a> {
    pub fn new(settings: &'a mut Settings) -> LenientSpan<'a>
        ensures lent { result.settings.ghost_name ≡ settings.entry.ghost_name }
        ensures off { result.settings.now.checks ≡ false }
        ensures kept { result.earlier ≡ settings.old.checks }
    {
        let earlier = mem::replace(&mut settings.checks, false);
        LenientSpan { settings, earlier }
    }

    // The settings as the span has them.
    pub fn settings(&self) -> &Settings
        ensures { result.now ≡ self.now.settings.now }
    {
        &*self.settings
    }
}

impl Drop for LenientSpan<'_> {
    fn drop(self)
        ensures { self.exit.0.now.checks ≡ self.entry.earlier }
    {
        let LenientSpan { settings, earlier } = self;
        settings.checks = earlier;
    }
}

// Stops at the first step that fails.
fn walked(steps: &[bool]) -> Result<(), Fault>
    ensures { told result ≡ only_if (list_all (λ step. step) steps.now) 13 (Ok tt) }
{
    if steps.iter().all(|step| *step) {
        Ok(())
    } else {
        Err(Fault::Length)
    }
}

// Walks the steps inside a lenient span, which it leaves early where there are none and where one fails, and counts them.
pub fn spans_restore(settings: &mut Settings, steps: &[bool]) -> Result<usize, Fault>
    ensures answer { told result ≡ only_if (list_all (λ step. step) steps.now) 13 (Ok (length steps.now)) }
    ensures whole { settings.new ≡ settings.old }
{
    let _span = LenientSpan::new(settings);
    if steps.is_empty() {
        return Ok(0);
    }
    walked(steps)?;
    Ok(steps.len())
}
