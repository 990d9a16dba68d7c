//! Laws of pasts. The checker proves each statement, and no call does anything.

ghost use Rattle.mesh_model.specs.ChangeSetLaws.{LeadsBack, JoinedLeads, OppositeTurns, TrimmedIsChangeSet, TrimmedLeads};
ghost use Rattle.mesh_trail.specs.PastLaws.{BeginsAtNow, NoteLeads, NoteStaysWhole, ChangeLeads, ChangeStaysWhole};

/// A change set leads back.
pub fn leads_back()
    ensures { LeadsBack }
{}

/// Joined pasts lead where the older one leads from where the newer one leads.
pub fn joined()
    ensures { JoinedLeads }
{}

/// The opposite of a change set is the change set the other way.
pub fn turned()
    ensures { OppositeTurns }
{}

/// A whole past that is trimmed is the change set of where it leads, and leads where it led.
pub fn trimmed()
    ensures change_set { TrimmedIsChangeSet }
    ensures leads { TrimmedLeads }
{}

/// A past without notes leads to now, and is whole.
pub fn begins()
    ensures { BeginsAtNow }
{}

/// The first note of what stands at a name leaves where a past leads, and a whole past whole.
pub fn first_note()
    ensures leads { NoteLeads }
    ensures whole { NoteStaysWhole }
{}

/// Changes at noted names alone leave where a past leads, and a whole past whole.
pub fn noted_changes()
    ensures leads { ChangeLeads }
    ensures whole { ChangeStaysWhole }
{}
