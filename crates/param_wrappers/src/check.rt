//! The check of a kernel call's arguments.

ghost use Rattle.std.specs.Prelude.{◌≡◌, ◌+◌, ◌<◌, ◌≤◌, true, IfOk, IsTrue, nat_le};
ghost use Rattle.std.specs.Prelude.{if◌then◌else◌, Ok, Err};
ghost use Rattle.machine_defs.specs.Services.{is_frame_length, tested_length, checked_frame, checked};
ghost use Rattle.param_wrappers.specs.Crossing.{can_serve, numbered};

use machine_defs::service_names::{ServiceName, service_named};
use nook_data::classes::{Class, class_code};
use nook_data::limits::MOST_FRAME_WORDS;
use nook_data::machine::{BadParam, Service};
use nook_data::memory_map::{BUFFERS_END, DATA_START, DATA_WORDS, LAST_OBJECT};
use object_tracker::Tracker;

/// The service of a kernel call by its number and its two arguments, for a driver of a class. The error names the
/// first argument that fails; 0 is the service itself.
pub fn check_service(
    number: u32,
    first: u32,
    second: u32,
    class: Class,
    tracker: &Tracker,
) -> Result<Service, BadParam>
    ensures checked { result ≡ checked number first second class tracker.now.entries }
    ensures can { IfOk result (λ service. can_serve service ≡ true) }
{
    match check_arguments(number, first, second, class, tracker) {
        Ok(service) => Ok(service),
        Err(argument) => Err(BadParam {
            service: number,
            argument,
        }),
    }
}

/// The service, or the number of the argument that fails.
fn check_arguments(
    number: u32,
    first: u32,
    second: u32,
    class: Class,
    tracker: &Tracker,
) -> Result<Service, u32>
    ensures checked { numbered number result
        ≡ checked number first second class tracker.now.entries }
    ensures can { IfOk result (λ service. can_serve service ≡ true) }
{
    match service_named(number) {
        Some(ServiceName::Alloc) => needs(
            1 <= first && first <= DATA_WORDS,
            1,
            Service::Alloc { n: first },
        ),
        Some(ServiceName::Free) => needs(
            tracker.is_heap_start(first),
            1,
            Service::Free { address: first },
        ),
        Some(ServiceName::Register) => needs(
            first == class_code(class) && !tracker.is_registered(),
            1,
            Service::Register,
        ),
        Some(ServiceName::Borrow) => check_borrow(first, tracker),
        Some(ServiceName::GiveBack) => check_give_back(first, tracker),
        Some(ServiceName::NetRx) => check_frame(first, second, class),
        Some(ServiceName::Log) => Ok(Service::Log),
        Some(ServiceName::Yield) => Ok(Service::Yield),
        None => Err(0),
    }
}

/// The service if its argument passes, otherwise the number of the argument that fails.
fn needs(passes: bool, argument: u32, service: Service) -> Result<Service, u32>
    ensures { result ≡ (if passes then Ok service else Err argument) }
{
    if passes { Ok(service) } else { Err(argument) }
}

/// Whether the object is one of the twelve and not borrowed.
fn check_borrow(object: u32, tracker: &Tracker) -> Result<Service, u32>
    ensures checked { numbered 4 result ≡ checked 4 object 0 Class.Block tracker.now.entries }
    ensures can { IfOk result (λ service. can_serve service ≡ true) }
{
    let passes = 1 <= object && object <= LAST_OBJECT && !tracker.is_borrowed(object);
    needs(passes, 1, Service::Borrow { object })
}

/// Whether the object is borrowed.
fn check_give_back(object: u32, tracker: &Tracker) -> Result<Service, u32>
    ensures checked { numbered 5 result ≡ checked 5 object 0 Class.Block tracker.now.entries }
    ensures can { IfOk result (λ service. can_serve service ≡ true) }
{
    needs(tracker.is_borrowed(object), 1, Service::GiveBack { object })
}

/// The class must be net; then the frame in the driver's data, stacks or buffers; then its length 1 to 64.
fn check_frame(start: u32, len: u32, class: Class) -> Result<Service, u32>
    ensures checked { numbered 6 result ≡ checked_frame start len class }
    ensures can { IfOk result (λ service. can_serve service ≡ true) }
{
    if class != Class::Net {
        return Err(0);
    }
    let fits = 1 <= len && len <= MOST_FRAME_WORDS as u32;
    let end = u64::from(start) + if fits { u64::from(len) } else { 1 };
    if start < DATA_START || u64::from(BUFFERS_END) < end {
        return Err(1);
    }
    needs(fits, 2, Service::NetRx { start, len })
}
