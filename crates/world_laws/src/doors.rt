//! Links of a site with a door for its operator, and entering.

ghost use Rattle.door_commands.specs.Told.{BrokerDoubts, BrokerObeys, DoubtsBy, EndsBy, VendorDoubts, VendorObeys};
ghost use Rattle.world_laws.specs.Doors.{AllAddOperators, DoubtsOperators, EitherIsSchedule, OpenLinksPlay, OpenLinksLead, OpeningIsARun, OpeningHalts};

use mc_outside::Outside;

/// Whatever a broker or a vendor is told at the door of his site, over any history and at any time: it adds no entry, or one of an
/// operator's command and of that time, which is told as done. An entry in doubt is such a one.
pub fn commands_are_entered()
    ensures broker { AllAddOperators (EndsBy BrokerObeys) }
    ensures vendor { AllAddOperators (EndsBy VendorObeys) }
    ensures broker_doubts { DoubtsOperators (DoubtsBy BrokerDoubts) }
    ensures vendor_doubts { DoubtsOperators (DoubtsBy VendorDoubts) }
{}

/// What becomes of a link at a house with a door, as serving it says of each (`HadEither`): a customer's is a schedule as at
/// any house (`served_links_are_delivered`). One of the operator's is Enter of the entry that his command added, at the house time
/// that one reading of the clock raised; or his command added none, and the house read its clock alone; or receiving failed,
/// and nothing happens. It is said where the history that stands then is one of a book. So serving links is one such schedule after
/// another, where the disk fails up to the request in doubt, or with the command in doubt.
pub fn links_of_a_door_are_played()
    ensures broker { EitherIsSchedule (EndsBy BrokerObeys) }
    ensures vendor { EitherIsSchedule (EndsBy VendorObeys) }
    ensures broker_links { OpenLinksPlay (EndsBy BrokerObeys) (DoubtsBy BrokerDoubts) }
    ensures vendor_links { OpenLinksPlay (EndsBy VendorObeys) (DoubtsBy VendorDoubts) }
{}

/// So all links that a house with a door served lead, from a world where it stands so, to one where it stands as the steps
/// say, and where nobody else moved: by one schedule of deliveries to it, readings of its clock and its operator's entries.
pub fn links_of_a_door_lead()
    ensures broker { OpenLinksLead (EndsBy BrokerObeys) (DoubtsBy BrokerDoubts) }
    ensures vendor { OpenLinksLead (EndsBy VendorObeys) (DoubtsBy VendorDoubts) }
{}

/// What serving the book of a site with a door does to it (`OpensLinksOf`, as `serve_open_book` says): from each world where a
/// house has the history of the book it is a new run and one schedule, in which nobody else moves; the disk encodes what the
/// house has then, and each crash meanwhile leaves what such a run leaves, or what one before could.
pub fn serving_with_a_door_is_a_run<O: Outside>()
    ensures broker { OpeningIsARun O.link O.disk (EndsBy BrokerObeys) (DoubtsBy BrokerDoubts) }
    ensures vendor { OpeningIsARun O.link O.disk (EndsBy VendorObeys) (DoubtsBy VendorDoubts) }
    ensures broker_halting { OpeningHalts O.link O.disk (EndsBy BrokerObeys) (DoubtsBy BrokerDoubts) }
    ensures vendor_halting { OpeningHalts O.link O.disk (EndsBy VendorObeys) (DoubtsBy VendorDoubts) }
{}
