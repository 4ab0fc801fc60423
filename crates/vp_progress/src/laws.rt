//! Functions that do nothing, with the laws as their contracts.

ghost use Rattle.vp_progress.specs.Progress.{SchedulesCanMend, ShortSchedulesCanMend};
ghost use Rattle.vp_progress.specs.Clients.{WholeWorldsServe};
ghost use Rattle.vp_progress.specs.NeverStuck.{ClientsCanBeServed, ShortSchedulesServe};
ghost use Rattle.vp_progress.specs.Gathering.{AnyoneCanLead, AnyoneCanLeadShortly};
ghost use Rattle.vp_progress.specs.Doubts.{DoubtsStay};
ghost use Rattle.vp_progress.specs.Meeting.{SitesCanMeet};
ghost use Rattle.vp_progress.specs.Together.{SitesServe};
ghost use Rattle.vp_progress.specs.Majority.{MajoritiesGoOn, OnlyMajoritiesAreFree};

/// Every schedule that spends no number can go on, by events that mend, to a world in which every site is up in one view of all sites
/// and at rest: no lock, no refresh, no transaction, no part, no doubt and no decision is left. The journal stays as it was. A run of fewer than
/// 2^32 - 2 steps spends no number.
pub fn schedules_can_mend()
    ensures unspent { SchedulesCanMend }
    ensures short { ShortSchedulesCanMend }
{}

/// In a whole world a client at any site gets any reads, writes, deletes and weighs committed for which one transaction has room: at most 64, and at
/// most 15,360 bytes of values. By its own calls and messages alone its transaction enters the journal, with just what was asked, and the
/// world is whole again. So does a client of any sites that are together, for the records that are free there, whatever other sites do.
pub fn clients_are_served()
    ensures whole { WholeWorldsServe }
    ensures together { SitesServe }
{}

/// Whatever has happened, a client at any site that has a name left for a transaction gets any of these committed: by events that mend all
/// sites and commit nothing, and then by its own calls and messages alone. A run of fewer than 2^32 - 2 steps leaves each site a name.
pub fn clients_can_be_served()
    ensures unspent { ClientsCanBeServed }
    ensures short { ShortSchedulesServe }
{}

/// What mends some sites ends no doubt of a coordinator outside: its records stay locked there until that site is heard.
pub fn doubts_stay()
    ensures { DoubtsStay }
{}

/// Any one site can lead: by two calls to regroup there, what is sent among these sites in between, and no tick, each of them accepts its
/// invitation, and the others wait for its view. Two numbers of views have to be left, as a run of fewer than 2^32 - 2 steps leaves them.
pub fn anyone_can_lead()
    ensures room { AnyoneCanLead }
    ensures short { AnyoneCanLeadShortly }
{}

/// Any sites at which no number is spent can be brought together, by events that mend them alone, whatever the others do: nothing happens at
/// another site, doubts of coordinators elsewhere stay, and there is no new one; no decision of these sites waits for one of them. The journal
/// is as it was.
pub fn sites_can_meet()
    ensures { SitesCanMeet }
{}

/// Whatever has happened and whatever the other sites do, a client at one of some sites gets any reads, writes, deletes and weighs committed of records
/// of which these sites are a majority: they have more than half of the weight by the table in force, and no one of them is in doubt about a
/// change of it of a coordinator elsewhere. No message is needed that was sent before.
/// However they have met, no other record is free to them.
pub fn majorities_go_on()
    ensures serve { MajoritiesGoOn }
    ensures only { OnlyMajoritiesAreFree }
{}
