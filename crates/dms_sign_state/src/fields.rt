//! What of a sign's state its text says.

use dms_codes::Status;
use dms_face::Defaults;
use dms_sign_access::{Reports, SignSettings};
use std::marker::Model;

/// A message.
#[derive(Debug, Drop)]
pub struct MessageFields {
    /// The text, at most `MAX_TEXT` octets.
    pub text: Vec<u8>,
    /// The owner, at most `MAX_OWNER` octets.
    pub owner: Vec<u8>,
    pub beacon: u8,
    pub pixel: u8,
    pub priority: u8,
}

impl Model for MessageFields {
    ghost use Rattle.dms_sign_state.specs.Fields.{MessageModel};

    ghost Value = { MessageModel };

    ghost view = { λ m. record {
      text = m.text.items;
      owner = m.owner.items;
      beacon = m.beacon;
      pixel = m.pixel;
      priority = m.priority;
    } };
}

/// A row that is used.
#[derive(Debug, Drop)]
pub struct UsedRowFields {
    /// Its number in its type of memory.
    pub number: u16,
    pub status: Status,
    pub message: MessageFields,
}

impl Model for UsedRowFields {
    ghost use Rattle.dms_sign_state.specs.Fields.{UsedRow};

    ghost Value = { UsedRow };

    ghost view = { λ r. record { number = r.number; status = r.status; message = r.message } };
}

/// What is shown, or was kept as the power was lost.
#[derive(Debug, Drop)]
pub struct PutFields {
    pub message: MessageFields,
    /// The code that names its row, as dmsMsgTableSource reads it.
    pub source: [u8; 5],
    /// What put it up, by its number in dmsMsgSourceMode.
    pub mode: u8,
    /// Who put it up.
    pub address: [u8; 4],
    /// The seconds until it ends; none without an end.
    pub remaining: Option<u32>,
    /// The defaults when it came up.
    pub defaults: Defaults,
}

impl Model for PutFields {
    ghost use Rattle.dms_sign_state.specs.Fields.{PutModel};

    ghost Value = { PutModel };

    ghost view = { λ p. record {
      message = p.message;
      source = p.source;
      mode = p.mode;
      address = p.address;
      remaining = p.remaining;
      defaults = p.defaults;
    } };
}

/// The fields of a sign's state.
#[derive(Debug, Drop)]
pub struct StateFields {
    /// The changeable rows that are used, by their numbers.
    pub changeable: Vec<UsedRowFields>,
    /// The volatile rows that are used, by their numbers.
    pub volatile: Vec<UsedRowFields>,
    pub settings: SignSettings,
    /// The seconds since a datagram was answered.
    pub silent_seconds: u32,
    pub shown: PutFields,
    /// What was shown as the power was lost.
    pub shown_at_power_loss: PutFields,
    pub reports: Reports,
    pub powered: bool,
}

impl Model for StateFields {
    ghost use Rattle.dms_sign_state.specs.Fields.{FieldsModel};

    ghost Value = { FieldsModel };

    ghost view = { λ s. record {
      changeable = s.changeable.items;
      volatile = s.volatile.items;
      settings = s.settings;
      silent_seconds = s.silent_seconds;
      shown = s.shown;
      shown_at_power_loss = s.shown_at_power_loss;
      reports = s.reports;
      powered = s.powered;
    } };
}
