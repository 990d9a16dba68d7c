//! Laws of change sets.

ghost use Rattle.mesh_model.specs.ChangeSetRows.{MovedNotes, CrossedNotes, FaceNotes, JoinedNotes, Leads};
ghost use Rattle.mesh_model.specs.ChangeSetLaws.{LeadsBack, JoinedLeads, OppositeTurns, TrimmedIsChangeSet, TrimmedLeads};

/// A change set leads back.
pub fn leads_back()
    ensures { LeadsBack }
{}

/// Joined pasts lead where the older one leads from where the newer one leads.
pub fn joined()
    ensures { JoinedLeads }
{}

/// The opposite of a change set is the change set the other way.
pub fn turned()
    ensures { OppositeTurns }
{}

/// A whole past that is trimmed is the change set, and leads where it led.
pub fn trimmed()
    ensures change_set { TrimmedIsChangeSet }
    ensures leads { TrimmedLeads }
{}

/// Change sets of the small models, and where a past leads that is written out.
pub fn rows()
    ensures moved { MovedNotes }
    ensures crossed { CrossedNotes }
    ensures face { FaceNotes }
    ensures joined { JoinedNotes }
    ensures leads { Leads }
{}
