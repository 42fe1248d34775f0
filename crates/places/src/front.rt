// What stands in front of the note in the header of a session.
ghost use Rattle.std.specs.Prelude.{◌≡◌};
ghost use Rattle.places.specs.Terms.{front_of};

use crate::terms::Edition;
use rules::FRONT;

// The job number and the revision, each as eight bytes, least first.
pub fn front(edition: Edition) -> [u8; FRONT]
    ensures { result ≡ front_of edition }
{
    let mut front = [0; FRONT];
    front[..8].copy_from_slice(&edition.job.to_le_bytes());
    front[8..].copy_from_slice(&edition.revision.to_le_bytes());
    front
}
