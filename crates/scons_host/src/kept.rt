//! What the host keeps of its refusals.
ghost use Rattle.std.specs.Prelude.{◌≡◌, ◌≤◌, Some, None, IfSome, IfNone};
ghost use Rattle.scons_base.specs.Rising.{Rose};
ghost use Rattle.scons_host.specs.Causes.{IsEndOf, IsOwn, KeepsEnd};
ghost use Rattle.scons_host.specs.Told as spec;

use crate::called::as_called;
use crate::end::{HostEnd, ReadKind};
use crate::site::Site;
use crate::stop::Stop;
use py_host::HostRefusal;
use std::alloc::Global;

/// Why the last call that was refused was refused, and how many were.
#[derive(Drop)]
pub struct Kept {
    pub end: Option<HostEnd>,
    pub refusals: u64,
}

impl Kept {
    /// Keeps why a question is refused.
    pub fn refuse(&mut self, alloc: Global, site: Site, stop: Stop) -> HostRefusal
        ensures told { result ≡ HostRefusal.Host → self.new.end ≡ Some (spec.end_of site stop) }
        ensures end { result ≡ HostRefusal.Host → KeepsEnd stop self.new.end }
        ensures memory { result ≡ HostRefusal.Memory → spec.MayBeShort stop }
        ensures untold { stop ≡ Stop.Memory → result ≡ HostRefusal.Memory }
        ensures same { result ≡ HostRefusal.Memory → self.new ≡ self.old }
        ensures later { self.old.refusals ≤ self.new.refusals }
        ensures counted { result ≡ HostRefusal.Host → Rose self.old.refusals self.new.refusals }
    {
        let Some(end) = end_of(alloc, site, stop) else {
            return HostRefusal::Memory;
        };
        self.end = Some(end);
        self.refusals = self.refusals.saturating_add(1);
        HostRefusal::Host
    }
}

/// The end of a stop at a site; none for want of memory, which isn't told by the host.
fn end_of(alloc: Global, site: Site, stop: Stop) -> Option<HostEnd>
    ensures told { IfSome result (λ e. e ≡ spec.end_of site stop) }
    ensures end { IfSome result (IsEndOf stop) }
    ensures memory { IfNone result (spec.MayBeShort stop) }
    ensures untold { stop ≡ Stop.Memory → result ≡ None }
{
    match stop {
        Stop::Memory => None,
        Stop::Here(kind) => here(alloc, site, kind),
        Stop::There(script, line, kind) => Some(HostEnd::Reading(script, line, kind)),
        Stop::Tree(path) => Some(HostEnd::Tree(path)),
        Stop::Out => Some(HostEnd::Out),
        Stop::TooLarge(path, size) => Some(HostEnd::TooLarge(path, size)),
        Stop::TooMany(what, count) => Some(HostEnd::TooMany(what, count)),
    }
}

/// The end of a fault at a site, told as it was called.
fn here(alloc: Global, site: Site, kind: ReadKind) -> Option<HostEnd>
    ensures told { IfSome result (λ e. e ≡ HostEnd.Reading site.script site.line (spec.as_called site.called kind)) }
    ensures own { IfSome result IsOwn }
    ensures memory { IfNone result (spec.TakesMemory kind) }
{
    let Site {
        script,
        line,
        called,
    } = site;
    match as_called(alloc, called.as_ref(), kind) {
        Ok(kind) => Some(HostEnd::Reading(script, line, kind)),
        Err(_) => None,
    }
}
