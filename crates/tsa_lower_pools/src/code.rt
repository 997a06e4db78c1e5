//! The code of a unit in flat pools: its instructions, its points with where each begins and leads, its cases, its functions, and the values
//! with which their locals begin.
ghost use Rattle.std.specs.Prelude.{◌<◌, ◌^◌, length, All};
ghost use Rattle.tsa_lower_pools.specs.Inside.{CaseInside, FunctionInside, PointInside};
ghost use Rattle.tsa_lower_pools.specs.Needs.{IsFit};

use tsa_base::Value;
use tsa_lower_code::Instr;

/// A part of a pool, by the numbers of its first and behind its last.
#[derive(Clone, Copy)]
pub struct PoolPart {
    pub from: u32,
    pub end: u32,
}

/// What a point does with the answer of its call: in the same turn it passes it, sets a local by it, or tests it and goes one way; or it goes
/// on by its code in the turns that follow.
#[derive(Clone, Copy)]
pub enum AnswerUse {
    Pass,
    Set { number: u32 },
    Test,
    Resume,
}

/// A case of a switch, and the point to which it leads.
#[derive(Clone, Copy)]
pub struct Case {
    pub value: i32,
    pub to: u32,
}

/// A point: its function and its number there, where its instructions begin and where those that follow the answer of its call, what is done
/// with that, and to which points it leads: on, for either truth of a test, for what is left of a switch, and for the switch's cases.
#[derive(Clone, Copy)]
pub struct PointCode {
    pub function: u32,
    pub point: u32,
    pub entry: u32,
    pub behind_call: u32,
    pub answer_use: AnswerUse,
    pub next: u32,
    pub yes: u32,
    pub no: u32,
    pub rest: u32,
    pub cases: PoolPart,
}

/// A function: its first point, and the values with which the locals begin that it declares.
#[derive(Clone, Copy)]
pub struct FunctionCode {
    pub first: u32,
    pub zeros: PoolPart,
}

/// The code of a unit, with how many slots each thread needs. All points are numbered in the unit.
#[derive(Drop)]
pub struct Code {
    pub instrs: Vec<Instr>,
    pub points: Vec<PointCode>,
    pub cases: Vec<Case>,
    pub functions: Vec<FunctionCode>,
    pub zeros: Vec<Value>,
    pub slots: u32,
    ghost few: { length instrs.items < 2 ^ 32 },
    ghost some: { 0 < slots },
    ghost fit: { All (IsFit slots) instrs.items },
    ghost inside: { All (PointInside (length instrs.items) (length points.items) (length cases.items)) points.items },
    ghost cases_inside: { All (CaseInside (length points.items)) cases.items },
    ghost functions_inside: { All (FunctionInside (length points.items) (length zeros.items)) functions.items },
}
