//! Records of a log as values of a type of their own, read and written one by one.
ghost use Rattle.std.specs.Prelude.{◌≡◌, None, codes};
ghost use Rattle.std.proofs.Common.{refl};
ghost use Rattle.cbor4ii.specs.CodecAgrees.{as_described};
ghost use Rattle.cbor4ii.specs.CodecFields.{struct_codec, with_field, with_field_or, no_fields};
ghost use Rattle.cbor4ii.specs.Fields.{no_values};

use crate::shapes;
use cbor4ii::serde::{
    AsDescribed, DecodeError, Described, Deserialize, Deserializer, EncodeError, Or, Required,
    Serialize, Serializer, Typed, from_slice, to_vec,
};
use cbor4ii_bench_kit::digest::Digest;
use cbor4ii_bench_kit::fault::Fault;
use cbor4ii_bench_kit::noise::Noise;
use cbor4ii_rw::buf_writer::BufWriter;
use cbor4ii_rw::read::Source;
use cbor4ii_rw::write::Write;
use std::alloc::Global;

/// So many records are in a round.
const RECORDS: u64 = 200;

/// Where a record comes from.
#[derive(Debug, Drop)]
struct Context {
    user: String,
    path: String,
    status: u16,
    args: Vec<i64>,
    admin: bool,
}

impl Serialize for Context {
    ghost encoding = { ⟦<Context as Described>⟧.codec.encoding };

    fn serialize<W: Write>(&self, ser: &mut Serializer<W>) -> Result<(), EncodeError<W::Error>> {
        ser.serialize_5_fields(
            "Context",
            "user",
            &self.user,
            "path",
            &self.path,
            "status",
            &self.status,
            "args",
            &self.args,
            "admin",
            &self.admin,
        )
    }
}

impl<S: Source> Deserialize<S> for Context {
    fn deserialize(
        alloc: Global,
        de: &mut Deserializer<S>,
    ) -> Result<Context, DecodeError<S::Error>> {
        let names = ["user", "path", "status", "args", "admin"];
        let missing = [
            "a context has no user",
            "a context has no path",
            "a context has no status",
            "a context has no args",
            "a context has no admin",
        ];
        let presences = (Required, (Required, (Required, (Required, (Required, ())))));
        de.deserialize_fields(alloc, "Context", &names, &missing, presences)
    }
}

impl From<(String, (String, (u16, (Vec<i64>, (bool, ())))))> for Context {
    ghost from_gives = { λ values c. c ≡ record {
      user = values.0;
      path = values.1.0;
      status = values.1.1.0;
      args = values.1.1.1.0;
      admin = values.1.1.1.1.0;
    } };

    fn from(values: (String, (String, (u16, (Vec<i64>, (bool, ())))))) -> Context {
        let (user, (path, (status, (args, (admin, ()))))) = values;
        Context {
            user,
            path,
            status,
            args,
            admin,
        }
    }
}

impl Typed for Context {
    ghost promise = { ⟦<Context as Described>⟧.codec.promise };
}

impl Described for Context {
    ghost codec = { struct_codec (λ c. (
      c.user,
      (c.path, (c.status, (c.args, (c.admin, no_values)))),
    ))
        (λ values. record {
          user = values.0;
          path = values.1.0;
          status = values.1.1.0;
          args = values.1.1.1.0;
          admin = values.1.1.1.1.0;
        }) (λ c. refl)
        (with_field (codes "user") (codes "a context has no user") ⟦<String as Described>⟧.codec
        (with_field (codes "path") (codes "a context has no path") ⟦<String as Described>⟧.codec
        (with_field (codes "status") (codes "a context has no status") ⟦<u16 as Described>⟧.codec
        (with_field (codes "args") (codes "a context has no args") ⟦<Vec<i64> as Described>⟧.codec
        (with_field (codes "admin") (codes "a context has no admin") ⟦<bool as Described>⟧.codec
        no_fields refl) refl) refl) refl) refl) refl };
}

impl AsDescribed for Context {
    ghost agrees = { as_described tt refl };
}

#[derive(Debug, Drop)]
struct Record {
    ts: u64,
    msg: String,
    ok: bool,
    tags: Vec<String>,
    ctx: Context,
    parent: Option<u64>,
}

impl Serialize for Record {
    ghost encoding = { ⟦<Record as Described>⟧.codec.encoding };

    fn serialize<W: Write>(&self, ser: &mut Serializer<W>) -> Result<(), EncodeError<W::Error>> {
        ser.serialize_6_fields(
            "Record",
            "ts",
            &self.ts,
            "msg",
            &self.msg,
            "ok",
            &self.ok,
            "tags",
            &self.tags,
            "ctx",
            &self.ctx,
            "parent",
            &self.parent,
        )
    }
}

impl<S: Source> Deserialize<S> for Record {
    fn deserialize(
        alloc: Global,
        de: &mut Deserializer<S>,
    ) -> Result<Record, DecodeError<S::Error>> {
        let names = ["ts", "msg", "ok", "tags", "ctx", "parent"];
        let missing = [
            "a record has no ts",
            "a record has no msg",
            "a record has no ok",
            "a record has no tags",
            "a record has no ctx",
        ];
        let presences = (
            Required,
            (Required, (Required, (Required, (Required, (Or(None), ()))))),
        );
        de.deserialize_fields(alloc, "Record", &names, &missing, presences)
    }
}

type RecordValues = (
    u64,
    (String, (bool, (Vec<String>, (Context, (Option<u64>, ()))))),
);

impl From<RecordValues> for Record {
    ghost from_gives = { λ values r. r ≡ record {
      ts = values.0;
      msg = values.1.0;
      ok = values.1.1.0;
      tags = values.1.1.1.0;
      ctx = values.1.1.1.1.0;
      parent = values.1.1.1.1.1.0;
    } };

    fn from(values: RecordValues) -> Record {
        let (ts, (msg, (ok, (tags, (ctx, (parent, ())))))) = values;
        Record {
            ts,
            msg,
            ok,
            tags,
            ctx,
            parent,
        }
    }
}

impl Typed for Record {
    ghost promise = { ⟦<Record as Described>⟧.codec.promise };
}

impl Described for Record {
    ghost codec = { struct_codec (λ r. (
      r.ts,
      (r.msg, (r.ok, (r.tags, (r.ctx, (r.parent, no_values))))),
    ))
        (λ values. record {
          ts = values.0;
          msg = values.1.0;
          ok = values.1.1.0;
          tags = values.1.1.1.0;
          ctx = values.1.1.1.1.0;
          parent = values.1.1.1.1.1.0;
        }) (λ r. refl)
        (with_field (codes "ts") (codes "a record has no ts") ⟦<u64 as Described>⟧.codec
        (with_field (codes "msg") (codes "a record has no msg") ⟦<String as Described>⟧.codec
        (with_field (codes "ok") (codes "a record has no ok") ⟦<bool as Described>⟧.codec
        (with_field (codes "tags") (codes "a record has no tags") ⟦<Vec<String> as Described>⟧.codec
        (with_field (codes "ctx") (codes "a record has no ctx") ⟦<Context as Described>⟧.codec
        (with_field_or (codes "parent") None ⟦<Option<u64> as Described>⟧.codec
        no_fields refl) refl) refl) refl) refl) refl) refl };
}

impl AsDescribed for Record {
    ghost agrees = { as_described tt refl };
}

/// One round of records.
pub fn round(alloc: Global, noise: &mut Noise, digest: &mut Digest) -> Result<(), Fault> {
    let mut bytes = BufWriter::new(Vec::new(alloc));
    let mut again = Vec::new(alloc);
    for i in 0..RECORDS {
        bytes.clear();
        shapes::record(&mut bytes, noise, i)?;
        let record: Record = from_slice(alloc, bytes.buffer())?;
        digest.number(record.msg.len() as u64);
        again.clear();
        again = to_vec(again, &record)?;
        digest.bytes(&again);
    }
    Ok(())
}
