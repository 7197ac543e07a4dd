//! Serving a link, and delivering.

ghost use Rattle.world_laws.specs.Links.{LinkIsSchedule, AllArePlayed, SomeArePlayed, FirstArePlayed, AllLead, SomeLead, FirstLead, DoubtLeads, AllFrontsLead, SomeFrontsLead};

/// What becomes of a link at a house, as serving links says of each (`HadLink`): from each world where the house stands
/// so, the texts of the items on it are messages that reach the house, one by one, each at the reading at which it was
/// served, and the replies are those of the steps, of which the last may have been sent in part. It is said where the
/// readings are moments and memory is refused to no request that would be taken. So serving links
/// (`ServedAll`, `ServedSome`, `InDoubtLinks`) is one such schedule after another, where the disk fails up to the request
/// whose entry is in doubt.
pub fn served_links_are_delivered()
    ensures link { LinkIsSchedule }
    ensures all { AllArePlayed }
    ensures some { SomeArePlayed }
    ensures first { FirstArePlayed }
{}

/// So all links that a house served lead, from a world where it stands so, to one where it stands as the steps say, and
/// where nobody else moved: by one schedule, whatever memory was refused meanwhile.
pub fn served_links_lead()
    ensures all { AllLead }
    ensures some { SomeLead }
    ensures first { FirstLead }
    ensures doubt { DoubtLeads }
    ensures all_fronts { AllFrontsLead }
    ensures some_fronts { SomeFrontsLead }
{}
