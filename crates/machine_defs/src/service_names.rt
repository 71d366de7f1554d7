//! The numbers by which drivers call the kernel's services.

ghost use Rattle.std.specs.Prelude.{◌≡◌, ◌==◌};
ghost use Rattle.machine_defs.specs.ServiceNames.{service_named};

/// The name of a kernel service.
#[derive(Clone, Copy)]
pub enum ServiceName {
    Alloc,
    Free,
    Register,
    Borrow,
    GiveBack,
    NetRx,
    Log,
    Yield,
}

/// The service with a number. All code that knows a service by its number uses this one table.
pub fn service_named(number: u32) -> Option<ServiceName>
    ensures { result ≡ service_named number }
{
    match number {
        1 => Some(ServiceName::Alloc),
        2 => Some(ServiceName::Free),
        3 => Some(ServiceName::Register),
        4 => Some(ServiceName::Borrow),
        5 => Some(ServiceName::GiveBack),
        6 => Some(ServiceName::NetRx),
        7 => Some(ServiceName::Log),
        8 => Some(ServiceName::Yield),
        _ => None,
    }
}

/// Whether a number is that of the service that hands a frame up.
pub fn is_net_rx(number: u32) -> bool
    ensures { result ≡ (number == 6) }
{
    matches!(service_named(number), Some(ServiceName::NetRx))
}
