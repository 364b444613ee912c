//! Laws of events: what they may be over every host, and how they count.
ghost use Rattle.b2_runs.specs.EventLaws.{OrderGoesOn, OrderHasBegun, OpenWithinJobs, DoneWasStarted, DoneOnce, EachEventOnce, RunIsInOrder, BegunIsInOrder, CountedInOrder, BadByCount, GoodByCount, CountedAsTheyAre, NoneIsShort, CountedWhereVisible, ShortIsFailed, ShortOwesFiles};

/// Events in order go on by each event that may follow.
pub fn order_goes_on()
    ensures { OrderGoesOn }
{}

/// The beginning of events in order is in order.
pub fn order_has_begun()
    ensures { OrderHasBegun }
{}

/// At each moment no more steps are open than there are jobs.
pub fn open_within_jobs()
    ensures { OpenWithinJobs }
{}

/// A step that is done was started.
pub fn order_done_was_started()
    ensures { DoneWasStarted }
{}

/// A step is done once.
pub fn order_done_once()
    ensures { DoneOnce }
{}

/// No step starts twice, and none ends twice.
pub fn order_each_once()
    ensures { EachEventOnce }
{}

/// The events of a run so far are in order.
pub fn run_is_in_order()
    ensures { RunIsInOrder }
{}

/// The events of an update that stopped anywhere are in order.
pub fn begun_is_in_order()
    ensures { BegunIsInOrder }
{}

/// Events in order are so as they count.
pub fn counted_in_order()
    ensures { CountedInOrder }
{}

/// A bad end, as it counts, is one of a step that ended badly, or that ended well and left an output out.
pub fn bad_by_count()
    ensures { BadByCount }
{}

/// A good end, as it counts, is one of a step that ended well and left every output.
pub fn good_by_count()
    ensures { GoodByCount }
{}

/// Where no step left an output out, events count as they are.
pub fn counted_as_they_are()
    ensures { CountedAsTheyAre }
{}

/// Over a host that tells its files no step that was done well has left an output out.
pub fn none_is_short()
    ensures { NoneIsShort }
{}

/// Where the files are visible, events count as they are.
pub fn counted_where_visible()
    ensures { CountedWhereVisible }
{}

/// A step that left an output out counts as failed.
pub fn short_is_failed()
    ensures { ShortIsFailed }
{}

/// A step that makes no file never counts as one that left an output out.
pub fn short_owes_files()
    ensures { ShortOwesFiles }
{}
