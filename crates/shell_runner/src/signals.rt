ghost use Rattle.std.specs.Prelude.{◌≡◌};
ghost use Rattle.shell_runner.specs.Children.{signal_name as spec_signal_name};

use bot_core::Signal;

/// The name of a signal, without `SIG`.
pub(crate) fn signal_name(signal: Signal) -> &'static str
    ensures { result.now ≡ spec_signal_name signal }
{
    match signal {
        Signal::Term => "TERM",
        Signal::Kill => "KILL",
    }
}
