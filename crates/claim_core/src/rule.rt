//! The rule of the table, and what each step tells.

ghost use Rattle.std.specs.Prelude.{true, false};
ghost use Rattle.claim_core.specs.Steps.{kept_back, given_on, both, spent, stub, idle, turn_of, with_turn};
ghost use Rattle.claim_core.specs.Plays.{looks, claims, takes, stores_tag, stores_value, publishes, loads_tag, loads_value, learns};

use crate::job::Job;
use crate::view::View;
use atomic_table::{Join, Play, Split, TableRule};
use demand_spec::BookView;
use std::alloc::AllocError;
use std::marker::PhantomData;

/// What the rule reads: it is fixed when the round is opened.
pub struct RoundKey<'b, B: BookView> {
    pub job: Job<'b, B>,
    pub workers: u8,
}

impl<'b, B: BookView> Clone for RoundKey<'b, B> {
    fn clone(&self) -> Result<RoundKey<'b, B>, AllocError> {
        Ok(*self)
    }
}

impl<'b, B: BookView> Copy for RoundKey<'b, B> {}

pub struct RoundRule<B> {
    marker: PhantomData<B>,
}

impl<'b, B: BookView> TableRule<(), View, RoundKey<'b, B>> for RoundRule<B> {
    ghost use Rattle.claim_core.specs.Table.{Holds, setup_at, opening};

    ghost holds = { λ key. Holds (setup_at key) };

    ghost first = { λ key. opening (setup_at key) };
}

pub struct Looks;

impl Play<(), View> for Looks {
    ghost then = { looks };
}

pub struct Claims;

impl Play<(), View> for Claims {
    ghost then = { claims };
}

pub struct Takes;

impl Play<(), View> for Takes {
    ghost then = { takes };
}

pub struct StoresTag;

impl Play<(), View> for StoresTag {
    ghost then = { stores_tag };
}

pub struct StoresValue;

impl Play<(), View> for StoresValue {
    ghost then = { stores_value };
}

pub struct Publishes;

impl Play<(), View> for Publishes {
    ghost then = { publishes };
}

pub struct LoadsTag;

impl Play<(), View> for LoadsTag {
    ghost then = { loads_tag };
}

pub struct LoadsValue;

impl Play<(), View> for LoadsValue {
    ghost then = { loads_value };
}

/// The next number goes to a new pass, which may step at once.
pub struct Deals;

impl Split<View> for Deals {
    ghost left = { kept_back true };

    ghost right = { given_on true };
}

/// The same, and the new pass steps only with the turn.
pub struct DealsIdle;

impl Split<View> for DealsIdle {
    ghost left = { kept_back false };

    ghost right = { given_on false };
}

/// A pass gives the turn.
pub struct GivesTurn;

impl Split<View> for GivesTurn {
    ghost left = { idle };

    ghost right = { turn_of };
}

/// A pass takes the turn.
pub struct TakesTurn;

impl Join<View> for TakesTurn {
    ghost both = { with_turn };

    ghost spent = { spent };
}

/// A seat with no number is split off, which keeps what the round was over.
pub struct Stubs;

impl Split<View> for Stubs {
    ghost left = { λ v. v };

    ghost right = { stub };
}

/// One pass takes in another.
pub struct Gathers;

impl Join<View> for Gathers {
    ghost both = { both };

    ghost spent = { spent };
}

pub struct Learns;

impl Play<(), View> for Learns {
    ghost then = { learns };
}
