//! The answers to wild loads.
ghost use Rattle.std.specs.Prelude.{◌≡◌, drop, length, Decides};
ghost use Rattle.ft_machine.specs.Answers.{next_answer};

use ft_isa::Wild;
use std::marker::Model;

/// The remaining answers to wild loads, as a list.
#[derive(Drop)]
pub struct WildLeft<'w> {
    rest: &'w [Wild],
}

impl<'w> Model for WildLeft<'w> {
    ghost use Rattle.std.specs.Prelude.{List};
    ghost use Rattle.ft_isa.specs.declared.plan.Wild.{Wild};

    ghost Value = { List Wild };

    ghost view = { λ w. w.rest.now };
}

impl<'w> WildLeft<'w> {
    /// All the answers of a plan, in order.
    pub fn new(all: &'w [Wild]) -> WildLeft<'w>
        ensures { result ≡ all.now }
    {
        WildLeft { rest: all }
    }

    /// Copies another's remaining answers.
    pub fn copy_from(&mut self, other: &WildLeft<'w>)
        ensures { self.new ≡ other.now }
    {
        self.rest = other.rest;
    }

    /// Whether the same answers are left.
    pub fn same_as(&self, other: &WildLeft<'w>) -> bool
        ensures { Decides result (self.now ≡ other.now) }
    {
        self.rest == other.rest
    }

    /// Takes the next answer; `Stop` if none is left.
    pub fn next(&mut self) -> Wild
        ensures answer { result ≡ next_answer self.old }
        ensures taken { self.new ≡ drop 1 self.old }
    {
        match self.rest {
            [first, rest @ ..] => {
                self.rest = rest;
                *first
            }
            [] => Wild::Stop,
        }
    }

    /// How many answers are left.
    pub fn left(&self) -> usize
        ensures { result ≡ length self.now }
    {
        self.rest.len()
    }
}
