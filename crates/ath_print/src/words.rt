// The texts of what has one.

ghost use Rattle.std.specs.Prelude.{◌≡◌, [], map, slice_index_or};
ghost use Rattle.std.specs.String.{string_bytes};
ghost use Rattle.ath_print.specs.Lines.{conn_text, quant_text, method_text, kind_text};

use crate::fault::FaultKind;
use ath_trees::{Conn, Quant};

pub fn file_name(files: &[String], number: usize) -> &str
    ensures { result.now ≡ slice_index_or (map string_bytes files.now) number [] }
{
    match files.get(number) {
        Some(file) => file.as_str(),
        None => "",
    }
}

pub fn connective(conn: Conn) -> &'static str
    ensures { result.now ≡ conn_text conn }
{
    match conn {
        Conn::Not => "not",
        Conn::And => "and",
        Conn::Or => "or",
        Conn::If => "if",
        Conn::Iff => "iff",
    }
}

pub fn quantifier(quant: Quant) -> &'static str
    ensures { result.now ≡ quant_text quant }
{
    match quant {
        Quant::Forall => "forall",
        Quant::Exists => "exists",
    }
}

pub fn method(number: u32) -> &'static str
    ensures { result.now ≡ method_text number }
{
    if number == 0 { "claim" } else { "mp" }
}

pub fn kind(kind: FaultKind) -> &'static str
    ensures { result.now ≡ kind_text kind }
{
    match kind {
        FaultKind::BadUtf8 => "BadUtf8",
        FaultKind::BadChar => "BadChar",
        FaultKind::OpenString => "OpenString",
        FaultKind::NameTooLong => "NameTooLong",
        FaultKind::Unexpected => "Unexpected",
        FaultKind::Unclosed => "Unclosed",
        FaultKind::KindMix => "KindMix",
        FaultKind::TooDeep => "TooDeep",
        FaultKind::NotBuilt => "NotBuilt",
        FaultKind::Redeclared => "Redeclared",
        FaultKind::UnknownSort => "UnknownSort",
        FaultKind::Arity => "Arity",
        FaultKind::LooseParam => "LooseParam",
        FaultKind::TooWide => "TooWide",
        FaultKind::SortTooLarge => "SortTooLarge",
        FaultKind::Unbound => "Unbound",
        FaultKind::FileTooLong => "FileTooLong",
        FaultKind::TooManyLoads => "TooManyLoads",
        FaultKind::LineTooLong => "LineTooLong",
        FaultKind::SortClash => "SortClash",
        FaultKind::ArgCount => "ArgCount",
        FaultKind::NotBoolean => "NotBoolean",
        FaultKind::TooLarge => "TooLarge",
        FaultKind::TooNested => "TooNested",
        FaultKind::WrongKind => "WrongKind",
        FaultKind::WrongShape => "WrongShape",
        FaultKind::NotInBase => "NotInBase",
        FaultKind::NotApplicable => "NotApplicable",
        FaultKind::NotMethod => "NotMethod",
        FaultKind::NotSentence => "NotSentence",
    }
}
