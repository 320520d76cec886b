//! Descriptors: the types of fields, parameters and results, read from left to right (JVMS 4.3).
//! Nothing is copied: a class's name is a part of the descriptor.

ghost use Rattle.std.specs.Prelude.{◌≡◌, ◌+◌, ◌<◌, ◌≤◌, ◌++◌, List as Seq, map, length, option_map, option_to_list, slice_index, IfOk};
ghost use Rattle.std.specs.Prelude.{IfSome, OnOk, [], fold};
ghost use Rattle.std.specs.Str.{IsCharBoundary, bytes_eq};
ghost use Rattle.vm_model.specs.Types.{signature_of, signature_in, type_of, reads, FieldType as Typed};
ghost use Rattle.vm_model.specs.Descriptors.{type_view, types_view, signature_view, reading_of, after_of, IsStage, IsNext};

use mg_text::Memory;
use std::alloc::Global;

/// The type of a field, a parameter or a result.
#[derive(Clone, Copy)]
pub enum FieldType<'a> {
    Int,
    Truth,
    /// A class, by its name.
    Named(&'a str),
    /// The array of texts that `main` takes.
    Texts,
}

/// What a method takes, and what it answers, where it answers something.
#[derive(Drop)]
pub struct Signature<'a> {
    pub params: Vec<FieldType<'a>>,
    pub result: Option<FieldType<'a>>,
}

/// What the reading of a descriptor expects next. A name is known by where it begins.
#[derive(Clone, Copy)]
enum Stage<'a> {
    Begins,
    Params,
    ParamName(usize),
    Answer,
    AnswerName(usize),
    Whole(Option<FieldType<'a>>),
}

/// What a byte leads to: another stage, and maybe a parameter.
#[derive(Clone, Copy)]
struct Next<'a> {
    stage: Stage<'a>,
    param: Option<FieldType<'a>>,
}

/// Another stage alone.
fn to<'a>(stage: Stage<'a>) -> Option<Next<'a>>
    ensures { result ≡ Some (record { stage = stage.entry; param = None }) }
{
    Some(Next { stage, param: None })
}

/// A parameter, behind which another may stand.
fn param<'a>(param: FieldType<'a>) -> Option<Next<'a>>
    ensures { result ≡ Some (record { stage = Stage.Params; param = Some param.entry }) }
{
    Some(Next {
        stage: Stage::Params,
        param: Some(param),
    })
}

/// The byte at which a parameter begins, or that which ends them.
#[tactic(auto, using(crate::proofs::Descriptors::cuts))]
fn read_param<'a>(descriptor: &'a str, at: usize, byte: u8) -> Option<Next<'a>>
    requires within { at < length descriptor.now }
    requires byte { byte ≡ slice_index descriptor.now at }
    ensures next { IfSome result (λ n. IsNext descriptor.now (at + 1) n) }
    ensures reads { (params : Seq Typed) → reads (reading_of descriptor.now at params Stage.Params) byte ≡ after_of descriptor.now
        (at + 1) params result }
{
    match byte {
        b')' => to(Stage::Answer),
        b'I' => param(FieldType::Int),
        b'Z' => param(FieldType::Truth),
        b'L' => to(Stage::ParamName(at + 1)),
        _ => None,
    }
}

/// The byte at which a result begins.
#[tactic(auto, using(crate::proofs::Descriptors::cuts))]
fn read_answer<'a>(descriptor: &'a str, at: usize, byte: u8) -> Option<Next<'a>>
    requires within { at < length descriptor.now }
    requires byte { byte ≡ slice_index descriptor.now at }
    ensures next { IfSome result (λ n. IsNext descriptor.now (at + 1) n) }
    ensures reads { (params : Seq Typed) → reads (reading_of descriptor.now at params Stage.Answer) byte ≡ after_of descriptor.now
        (at + 1) params result }
{
    match byte {
        b'V' => to(Stage::Whole(None)),
        b'I' => to(Stage::Whole(Some(FieldType::Int))),
        b'Z' => to(Stage::Whole(Some(FieldType::Truth))),
        b'L' => to(Stage::AnswerName(at + 1)),
        _ => None,
    }
}

/// A byte of the name of a class, or that which ends it.
#[tactic(auto, using(crate::proofs::Descriptors::cuts))]
fn read_param_name<'a>(descriptor: &'a str, at: usize, byte: u8, start: usize) -> Option<Next<'a>>
    requires within { at < length descriptor.now }
    requires byte { byte ≡ slice_index descriptor.now at }
    requires order { start ≤ at }
    requires cut { IsCharBoundary descriptor.now start }
    ensures next { IfSome result (λ n. IsNext descriptor.now (at + 1) n) }
    ensures reads { (params : Seq Typed) → reads (reading_of descriptor.now at params (Stage.ParamName start)) byte
        ≡ after_of descriptor.now (at + 1) params result }
{
    if byte == b';' {
        param(FieldType::Named(&descriptor[start..at]))
    } else {
        to(Stage::ParamName(start))
    }
}

/// The same in a result.
#[tactic(auto, using(crate::proofs::Descriptors::cuts))]
fn read_answer_name<'a>(descriptor: &'a str, at: usize, byte: u8, start: usize) -> Option<Next<'a>>
    requires within { at < length descriptor.now }
    requires byte { byte ≡ slice_index descriptor.now at }
    requires order { start ≤ at }
    requires cut { IsCharBoundary descriptor.now start }
    ensures next { IfSome result (λ n. IsNext descriptor.now (at + 1) n) }
    ensures reads { (params : Seq Typed) → reads (reading_of descriptor.now at params (Stage.AnswerName start)) byte
        ≡ after_of descriptor.now (at + 1) params result }
{
    if byte == b';' {
        to(Stage::Whole(Some(FieldType::Named(&descriptor[start..at]))))
    } else {
        to(Stage::AnswerName(start))
    }
}

/// One more byte.
fn read<'a>(descriptor: &'a str, at: usize, byte: u8, stage: Stage<'a>) -> Option<Next<'a>>
    requires within { at < length descriptor.now }
    requires byte { byte ≡ slice_index descriptor.now at }
    requires stage { (params : Seq Typed) × IsStage descriptor.now at params stage }
    ensures next { IfSome result (λ n. IsNext descriptor.now (at + 1) n) }
    ensures reads { (params : Seq Typed) → IsStage descriptor.now at params stage.entry →
        reads (reading_of descriptor.now at params stage.entry) byte ≡ after_of descriptor.now (at + 1) params result }
{
    match stage {
        Stage::Begins => {
            if byte == b'(' {
                to(Stage::Params)
            } else {
                None
            }
        }
        Stage::Params => read_param(descriptor, at, byte),
        Stage::ParamName(start) => read_param_name(descriptor, at, byte, start),
        Stage::Answer => read_answer(descriptor, at, byte),
        Stage::AnswerName(start) => read_answer_name(descriptor, at, byte, start),
        Stage::Whole(_) => None,
    }
}

/// Appends a parameter, where there is one.
fn add<'a>(params: &mut Vec<FieldType<'a>>, param: Option<FieldType<'a>>) -> Result<(), Memory>
    ensures { OnOk result (types_view params.new.items ≡ types_view params.old.items ++ option_to_list (option_map type_view param.entry)) }
{
    if let Some(param) = param {
        params.push(param)?;
    }
    Ok(())
}

/// Reads on from a stage to the end.
fn read_from<'a>(
    alloc: Global,
    descriptor: &'a str,
    first: Stage<'a>,
) -> Result<Option<Signature<'a>>, Memory>
    requires { IsStage descriptor.now 0 [] first }
    ensures { IfOk result (λ s. option_map signature_view s
        ≡ signature_in (fold reads (reading_of descriptor.now 0 [] first.entry) descriptor.now)) }
{
    let mut params = Vec::new(alloc);
    let mut stage = first;
    for (at, byte) in descriptor.as_bytes().iter().enumerate() {
        let Some(next) = read(descriptor, at, *byte, stage) else {
            return Ok(None);
        };
        add(&mut params, next.param)?;
        stage = next.stage;
    }
    match stage {
        Stage::Whole(result) => Ok(Some(Signature { params, result })),
        _ => Ok(None),
    }
}

/// The signature of a method of this descriptor.
///
/// # Errors
/// `Memory` only.
#[tactic(auto, unfolding(crate::specs::Types::signature_of))]
pub fn read_signature<'a>(
    alloc: Global,
    descriptor: &'a str,
) -> Result<Option<Signature<'a>>, Memory>
    ensures { IfOk result (λ s. option_map signature_view s ≡ signature_of descriptor.now) }
{
    if descriptor == "([Ljava/lang/String;)V" {
        let mut params = Vec::new(alloc);
        params.push(FieldType::Texts)?;
        return Ok(Some(Signature {
            params,
            result: None,
        }));
    }
    read_from(alloc, descriptor, Stage::Begins)
}

/// The type of a field of this descriptor.
///
/// # Errors
/// `Memory` only.
#[tactic(auto, unfolding(crate::specs::Types::type_of))]
pub fn read_type<'a>(alloc: Global, descriptor: &'a str) -> Result<Option<FieldType<'a>>, Memory>
    ensures { IfOk result (λ t. option_map type_view t ≡ type_of descriptor.now) }
{
    match read_from(alloc, descriptor, Stage::Answer)? {
        Some(signature) => Ok(signature.result),
        None => Ok(None),
    }
}
