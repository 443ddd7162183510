// The begin of a call on the tap.
ghost use Rattle.eleos_pages.specs.Crossed.{HasBegun, HasCome};

use eleos_host::{HostPort, Tap};

/// Begins the tap, into which nothing has come then.
pub fn begin<P: HostPort>(tap: &mut Tap<P>)
    ensures begun { HasBegun P.HostPort.own P.HostStore.own tap.old tap.new }
    ensures none_came { HasCome 0 tap.new }
{
    tap.begin();
}
