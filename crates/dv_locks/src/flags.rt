ghost use Rattle.std.specs.Prelude.{◌≡◌};
ghost use Rattle.std.specs.List.{list_any};
ghost use Rattle.dv_definition.specs.Flags.{list_flags, gather_flags, fires_on_one_callback};
ghost use Rattle.dv_definition.specs.Flags.{fires_on_one_errback, consumes_errors};
ghost use Rattle.dv_definition.specs.Flags.{gather_consumes_errors};

use dv_prims::gather::Flags;
use dv_script::action::{GatherFlag, ListFlag};

/// The flags of a DeferredList, each of which is set where it is given.
pub fn list_flags(flags: &[ListFlag]) -> Flags
    ensures { result ≡ list_flags flags.now }
{
    Flags {
        fire_on_one_callback: fire_on_one_callback(flags),
        fire_on_one_errback: fire_on_one_errback(flags),
        consume_errors: consume_errors(flags),
    }
}

fn fire_on_one_callback(flags: &[ListFlag]) -> bool
    ensures { result ≡ list_any fires_on_one_callback flags.now }
{
    flags.iter().any(fires_on_one_callback)
}

fn fire_on_one_errback(flags: &[ListFlag]) -> bool
    ensures { result ≡ list_any fires_on_one_errback flags.now }
{
    flags.iter().any(fires_on_one_errback)
}

fn consume_errors(flags: &[ListFlag]) -> bool
    ensures { result ≡ list_any consumes_errors flags.now }
{
    flags.iter().any(consumes_errors)
}

/// The flags of what `gatherResults` makes a DeferredList of.
pub fn gather_flags(flags: &[GatherFlag]) -> Flags
    ensures { result ≡ gather_flags flags.now }
{
    Flags {
        fire_on_one_callback: false,
        fire_on_one_errback: true,
        consume_errors: flags.iter().any(gather_consumes_errors),
    }
}

fn fires_on_one_callback(flag: &ListFlag) -> bool
    ensures { result ≡ fires_on_one_callback flag.now }
{
    match flag {
        ListFlag::FireOnOneCallback => true,
        ListFlag::FireOnOneErrback | ListFlag::ConsumeErrors => false,
    }
}

fn fires_on_one_errback(flag: &ListFlag) -> bool
    ensures { result ≡ fires_on_one_errback flag.now }
{
    match flag {
        ListFlag::FireOnOneErrback => true,
        ListFlag::FireOnOneCallback | ListFlag::ConsumeErrors => false,
    }
}

fn consumes_errors(flag: &ListFlag) -> bool
    ensures { result ≡ consumes_errors flag.now }
{
    match flag {
        ListFlag::ConsumeErrors => true,
        ListFlag::FireOnOneCallback | ListFlag::FireOnOneErrback => false,
    }
}

fn gather_consumes_errors(flag: &GatherFlag) -> bool
    ensures { result ≡ gather_consumes_errors flag.now }
{
    match flag {
        GatherFlag::ConsumeErrors => true,
    }
}
