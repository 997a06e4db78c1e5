//! What is read of a unit's code, by its numbers.
ghost use Rattle.std.specs.Prelude.{◌≡◌, ◌<◌, length, nat_lt, slice_get, Some};
ghost use Rattle.tsa_lower_pools.specs.Inside.{PointInside};
ghost use Rattle.tsa_lower_pools.specs.Needs.{IsFit};
ghost use Rattle.tsa_lower_pools.specs.Pools.{case_in, first_case as spec_first_case, function_in, point_in, zeros_in};

use crate::code::{Case, Code, PointCode};
use tsa_base::Value;
use tsa_lower_code::Instr;

/// The point to which the first case of a value leads, else another.
fn first_case(value: i32, cases: &[Case], rest: u32) -> u32
    ensures { result ≡ spec_first_case value cases.now rest }
{
    match cases.split_first() {
        None => rest,
        Some((case, others)) => {
            if case.value <= value && value <= case.value {
                case.to
            } else {
                first_case(value, others, rest)
            }
        }
    }
}

impl Code {
    /// The instruction of a number.
    pub fn instr(&self, at: usize) -> Instr
        requires { at < length self.now.instrs.items }
        ensures is { slice_get self.now.instrs.items at ≡ Some result }
        ensures fit { IsFit self.now.slots result }
    {
        self.instrs[at]
    }

    /// The point of a number.
    pub fn point(&self, at: u32) -> PointCode
        requires { at < length self.now.points.items }
        ensures is { result ≡ point_in self.now at }
        ensures inside { PointInside (length self.now.instrs.items) (length self.now.points.items) (length self.now.cases.items) result }
    {
        self.points[at as usize]
    }

    /// Whether a function is known.
    pub fn has_function(&self, function: u32) -> bool
        ensures { result ≡ nat_lt function (length self.now.functions.items) }
    {
        (function as usize) < self.functions.len()
    }

    /// The first point of a function.
    pub fn first_point(&self, function: u32) -> u32
        requires { function < length self.now.functions.items }
        ensures is { result ≡ (function_in self.now function).first }
        ensures inside { result < length self.now.points.items }
    {
        self.functions[function as usize].first
    }

    /// The values with which the locals begin that a function declares.
    pub fn zeros(&self, function: u32) -> &[Value]
        requires { function < length self.now.functions.items }
        ensures { result.now ≡ zeros_in self.now function }
    {
        let part = self.functions[function as usize].zeros;
        &self.zeros[part.from as usize..part.end as usize]
    }

    /// The point to which the switch at a point leads for a value.
    pub fn case(&self, at: u32, value: i32) -> u32
        requires { at < length self.now.points.items }
        ensures is { result ≡ case_in self.now (point_in self.now at) value }
        ensures inside { result < length self.now.points.items }
    {
        let point = self.point(at);
        first_case(
            value,
            &self.cases[point.cases.from as usize..point.cases.end as usize],
            point.rest,
        )
    }
}
