use crate::{Alarm, EvidenceLine, FinalSeen, Mark, Promised};

/// What a line of the memory says.
#[derive(Drop)]
pub enum Item {
    Promised(Promised),
    Watched(Mark),
    Final(FinalSeen),
    Alarm(Alarm),
    Evidence(EvidenceLine),
}
