//! The members of each object of a catalog.
ghost use Rattle.std.specs.Prelude.{◌≡◌};
ghost use Rattle.owner_catalog.specs.Members.{may_lack, member_name};

use crate::fault::Member;

pub(crate) const CATALOG: [Member; 2] = [Member::Analysts, Member::Owners];

pub(crate) const OWNER: [Member; 6] = [
    Member::OwnerName,
    Member::Budget,
    Member::Capacity,
    Member::Tables,
    Member::Partitions,
    Member::Limits,
];

pub(crate) const TABLE: [Member; 3] = [Member::TableName, Member::File, Member::Columns];

pub(crate) const COLUMN: [Member; 2] = [Member::ColumnName, Member::ColumnType];

pub(crate) const PARTITION: [Member; 4] = [
    Member::PartitionName,
    Member::PartitionTable,
    Member::PartitionColumn,
    Member::Keys,
];

pub(crate) const LIMIT: [Member; 2] = [Member::LimitAnalyst, Member::LimitBudget];

/// Whether an object may lack a member.
pub(crate) fn may_lack(member: Member) -> bool
    ensures { result ≡ may_lack member }
{
    match member {
        Member::Limits => true,
        _ => false,
    }
}

/// The name that a member has in its object.
#[tactic(auto, unfolding(crate::specs::Members::member_name))]
pub(crate) fn member_name(member: Member) -> &'static str
    ensures { result.now ≡ member_name member }
{
    match member {
        Member::Catalog => "",
        Member::Analysts => "analysts",
        Member::Analyst => "",
        Member::Owners => "owners",
        Member::Owner => "",
        Member::OwnerName => "name",
        Member::Budget => "budget",
        Member::Capacity => "capacity",
        Member::Tables => "tables",
        Member::Table => "",
        Member::TableName => "name",
        Member::File => "file",
        Member::Columns => "columns",
        Member::Column => "",
        Member::ColumnName => "name",
        Member::ColumnType => "type",
        Member::Partitions => "partitions",
        Member::Partition => "",
        Member::PartitionName => "name",
        Member::PartitionTable => "table",
        Member::PartitionColumn => "column",
        Member::Keys => "keys",
        Member::Key => "",
        Member::Limits => "limits",
        Member::Limit => "",
        Member::LimitAnalyst => "analyst",
        Member::LimitBudget => "budget",
    }
}
