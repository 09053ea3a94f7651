//! What a plan says of joins and groups, and its rules, from their tables.

ghost use Rattle.std.specs.Prelude.{◌≡◌, codes, map, option_and_then, IfOk};
ghost use Rattle.toml.specs.View.{table_view, view};
ghost use Rattle.text_reading.specs.Runs.{name_in};
ghost use Rattle.toml_tables.specs.Tables.{text_at};
ghost use Rattle.plan_reader.specs.Entries.{entry_seen};
ghost use Rattle.plan_reader.specs.Settings.{group_setting, group_with, join_in, join_setting, rule_in, rule_names, written_rule};

use crate::entries::{Entry, given_at};
use crate::items::Item;
use crate::plan::{GroupSetting, JoinSetting, Policy, WrittenRule};
use crate::words::{group_in, join_number};
use med_base::GroupName;
use med_prelude::{Listed, Text};
use rule_reader::Method;
use std::alloc::{AllocError, Global};
use text_reading::name_in;
use toml::{Table, Value};
use toml_tables::{has_only, text_at};

#[tactic(auto, unfolding(crate::specs::Settings::join_in))]
fn join_in(join: u32, table: &Table) -> Option<JoinSetting>
    ensures { result ≡ join_in join (table_view table.now) }
{
    if !has_only(table, ["method", "quota"].as_slice()) {
        return None;
    }
    let method = given_at::<Method>(table, "method")?;
    let quota = given_at::<u64>(table, "quota")?;
    Some(JoinSetting {
        join,
        method,
        quota,
    })
}

impl Item<Entry<'_>> for JoinSetting {
    ghost item_in = { λ entry. join_setting (entry_seen entry) };

    fn read(_: Global, entry: &Entry<'_>) -> Result<Option<JoinSetting>, AllocError> {
        match join_number(entry.key.as_bytes()) {
            Some(join) => match entry.value.as_table() {
                Some(table) => Ok(join_in(join, table)),
                None => Ok(None),
            },
            None => Ok(None),
        }
    }
}

#[tactic(auto, unfolding(crate::specs::Settings::group_with))]
fn group_with(group: GroupName, table: &Table) -> Option<GroupSetting>
    ensures { result ≡ group_with group (table_view table.now) }
{
    if !has_only(table, ["policy"].as_slice()) {
        return None;
    }
    let policy = given_at::<Policy>(table, "policy")?;
    Some(GroupSetting { group, policy })
}

impl Item<Entry<'_>> for GroupSetting {
    ghost item_in = { λ entry. group_setting (entry_seen entry) };

    fn read(_: Global, entry: &Entry<'_>) -> Result<Option<GroupSetting>, AllocError> {
        match group_in(entry.key.as_bytes()) {
            Some(group) => match entry.value.as_table() {
                Some(table) => Ok(group_with(group, table)),
                None => Ok(None),
            },
            None => Ok(None),
        }
    }
}

fn name_at(alloc: Global, table: &Table) -> Result<Option<Text>, AllocError>
    ensures { IfOk result (λ name. name ≡ option_and_then name_in (text_at (codes "name") (table_view table.now))) }
{
    match text_at(table, "name") {
        Some(name) => name_in(alloc, name.as_bytes()),
        None => Ok(None),
    }
}

#[tactic(auto, unfolding(crate::specs::Settings::rule_in))]
fn rule_in(alloc: Global, table: &Table) -> Result<Option<WrittenRule>, AllocError>
    ensures { IfOk result (λ rule. rule ≡ rule_in (table_view table.now)) }
{
    if !has_only(table, ["name", "text"].as_slice()) {
        return Ok(None);
    }
    let Some(name) = name_at(alloc, table)? else {
        return Ok(None);
    };
    match text_at(table, "text") {
        Some(text) => {
            let text = Text::from_str(alloc, text)?;
            Ok(Some(WrittenRule { name, text }))
        }
        None => Ok(None),
    }
}

impl Item<Value> for WrittenRule {
    ghost item_in = { λ value. written_rule (view value) };

    fn read(alloc: Global, value: &Value) -> Result<Option<WrittenRule>, AllocError> {
        match value.as_table() {
            Some(table) => rule_in(alloc, table),
            None => Ok(None),
        }
    }
}

/// The name, alone.
fn names_of<'a>(alloc: Global, rule: &'a Option<WrittenRule>) -> Result<Listed<&'a str>, AllocError>
    ensures { IfOk result (λ names. map (λ n. n.now) names ≡ rule_names rule.now) }
{
    let mut names = Listed::new(alloc);
    if let Some(rule) = rule {
        names.push(rule.name.as_str())?;
    }
    Ok(names)
}

/// The names, rule by rule.
pub fn rule_names(
    alloc: Global,
    rules: &[Option<WrittenRule>],
) -> Result<Listed<Listed<&str>>, AllocError>
    ensures { IfOk result (λ names. map (map (λ n. n.now)) names ≡ map rule_names rules.now) }
{
    let mut names = Listed::new(alloc);
    for rule in rules {
        names.push(names_of(alloc, rule)?)?;
    }
    Ok(names)
}
