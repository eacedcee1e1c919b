//! What the object of an answer that names a holder says of the world.

ghost use Rattle.answer_data.specs.Laws.{HoldersAreSaid, HolderObjectsAreTrue};

use attribution_desk::accepted_rulings_are_true;

/// The object of an answer over two journals that names a holder is read as one that names the client of the certificate
/// that was found, its interval and its text; and what the certificate says is true in every run of the pair that leaves
/// the journals, with clocks within the skew and answers within the transit, however both servers went on.
pub fn holder_objects_are_true()
    ensures said { HoldersAreSaid }
    ensures objects { HolderObjectsAreTrue }
{
    accepted_rulings_are_true();
}
