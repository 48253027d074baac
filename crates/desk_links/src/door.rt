//! The trait of a door.
ghost use Rattle.std.specs.Prelude.{◌≡◌, ◌<◌, length};
ghost use Rattle.desk_outside.specs.Cause.{HasCause};
ghost use Rattle.desk_links.specs.Doors.{DoorView, Admits, with_kept};

use crate::link::Link;

/// A door did not hand out a link; the count of its faults has risen.
#[derive(Clone, Copy, Debug, PartialEq, Eq)]
pub struct DoorFault;

/// Where links come in, one after the other, and where they are kept once they were served.
///
/// A door may tell the inputs of the links that are to come. It counts the links that it hands out,
/// also those that nobody hands back. It keeps each link that is handed back, with what passed over
/// it, whether its input ended and its count of faults; room for so many links was made with the
/// door.
pub trait Door: Send {
    type Link: Link;

    ghost view: { Self → DoorView };

    /// The count of faults. It stands still at the last value of a `u64`.
    fn faults(&self) -> u64
        ensures { result ≡ (view self.now).faults };

    /// The next link. None where no more will come, which only a door says that tells what comes.
    fn accept(&mut self) -> Result<Option<Self::Link>, DoorFault>
        ensures link { Admits Self.Link.view (view self.old) result (view self.new) }
        ensures cause { HasCause (view self.old).faults (view self.new).faults result };

    /// Keeps a link that was served.
    fn finish(&mut self, link: Self::Link)
        requires { length (view self.old).kept < (view self.old).room }
        ensures { view self.new ≡ with_kept (view self.old) (Self.Link.view link) };
}
