//! A struct of eight fields with defaults, and at which byte its reading fails.
ghost use Rattle.std.specs.Prelude.{◌≡◌, None, false, codes, IfErr};
ghost use Rattle.std.proofs.Common.{refl};
ghost use Rattle.cbor4ii.specs.CodecAgrees.{as_described};
ghost use Rattle.cbor4ii.specs.CodecFields.{struct_codec, with_field_once, with_field_once_or};
ghost use Rattle.cbor4ii.specs.CodecFields.{no_fields};
ghost use Rattle.cbor4ii.specs.Fields.{no_values};
ghost use Rattle.cbor4ii.specs.First.{FirstWhole, typed_error_of};
ghost use Rattle.cbor4ii_items.specs.Whole.{StopsAt, without_byte};

use cbor4ii::dec::Source;
use cbor4ii::enc::Write;
use cbor4ii::error::Never;
use cbor4ii::serde::{
    AsDescribed, DecodeError, Described, Deserialize, Deserializer, EncodeError, ErrorAt,
    FieldValues, Once, Or, Required, Serialize, Serializer, Typed, WholeError, from_slice_whole_at,
};
use std::alloc::Global;

/// The settings of a server.
#[derive(Debug, PartialEq, Drop)]
pub struct Settings {
    /// The host's name.
    pub host: String,
    /// The port, 8080 where it is not set.
    pub port: u16,
    /// Whether each request is logged.
    pub verbose: bool,
    /// How many requests are served at a time, 4 where it is not set.
    pub workers: u8,
    /// The bytes of the cache, none where it is not set.
    pub cache: u64,
    /// A proxy.
    pub proxy: Option<String>,
    /// The plugins' names.
    pub plugins: Option<Vec<String>>,
    /// What a visitor is told first.
    pub greeting: Option<String>,
}

impl Serialize for Settings {
    ghost encoding = { ⟦<Settings as Described>⟧.codec.encoding };

    fn serialize<W: Write>(&self, ser: &mut Serializer<W>) -> Result<(), EncodeError<W::Error>> {
        let fields = (
            &self.host,
            &self.port,
            &self.verbose,
            &self.workers,
            &self.cache,
            &self.proxy,
            &self.plugins,
            &self.greeting,
        );
        fields.serialize_fields(
            "Settings",
            &[
                "host", "port", "verbose", "workers", "cache", "proxy", "plugins", "greeting",
            ],
            ser,
        )
    }
}

/// Only the host has to be there. Each field may come at any place, and others are skipped.
impl<S: Source> Deserialize<S> for Settings {
    fn deserialize(
        alloc: Global,
        de: &mut Deserializer<S>,
    ) -> Result<Settings, DecodeError<S::Error>> {
        let missing = [
            "settings have one host",
            "settings have one port",
            "settings are verbose or not",
            "settings have one number of workers",
            "settings have one cache",
            "settings have one proxy",
            "settings have one list of plugins",
            "settings have one greeting",
        ];
        let presences = (
            Once(Required),
            (
                Once(Or(8080)),
                (
                    Once(Or(false)),
                    (
                        Once(Or(4)),
                        (
                            Once(Or(0)),
                            (Once(Or(None)), (Once(Or(None)), (Once(Or(None)), ()))),
                        ),
                    ),
                ),
            ),
        );
        de.deserialize_fields(
            alloc,
            "Settings",
            &[
                "host", "port", "verbose", "workers", "cache", "proxy", "plugins", "greeting",
            ],
            &missing,
            presences,
        )
    }
}

type SettingsValues = (
    String,
    (
        u16,
        (
            bool,
            (
                u8,
                (
                    u64,
                    (Option<String>, (Option<Vec<String>>, (Option<String>, ()))),
                ),
            ),
        ),
    ),
);

impl From<SettingsValues> for Settings {
    ghost from_gives = { λ values s. s ≡ record {
      host = values.0;
      port = values.1.0;
      verbose = values.1.1.0;
      workers = values.1.1.1.0;
      cache = values.1.1.1.1.0;
      proxy = values.1.1.1.1.1.0;
      plugins = values.1.1.1.1.1.1.0;
      greeting = values.1.1.1.1.1.1.1.0;
    } };

    fn from(values: SettingsValues) -> Settings {
        let (host, (port, (verbose, (workers, (cache, (proxy, (plugins, (greeting, ())))))))) =
            values;
        Settings {
            host,
            port,
            verbose,
            workers,
            cache,
            proxy,
            plugins,
            greeting,
        }
    }
}

impl Typed for Settings {
    ghost promise = { ⟦<Settings as Described>⟧.codec.promise };
}

impl Described for Settings {
    ghost codec = { struct_codec (λ s. (
      s.host,
      (
        s.port,
        (
          s.verbose,
          (
            s.workers,
            (s.cache, (s.proxy, (s.plugins, (s.greeting, no_values)))),
          ),
        ),
      ),
    ))
        (λ values. record {
          host = values.0;
          port = values.1.0;
          verbose = values.1.1.0;
          workers = values.1.1.1.0;
          cache = values.1.1.1.1.0;
          proxy = values.1.1.1.1.1.0;
          plugins = values.1.1.1.1.1.1.0;
          greeting = values.1.1.1.1.1.1.1.0;
        }) (λ s. refl)
        (with_field_once (codes "host") (codes "settings have one host")
        ⟦<String as Described>⟧.codec
        (with_field_once_or (codes "port") (codes "settings have one port") 8080
        ⟦<u16 as Described>⟧.codec
        (with_field_once_or (codes "verbose") (codes "settings are verbose or not") false
        ⟦<bool as Described>⟧.codec
        (with_field_once_or (codes "workers") (codes "settings have one number of workers") 4
        ⟦<u8 as Described>⟧.codec
        (with_field_once_or (codes "cache") (codes "settings have one cache") 0
        ⟦<u64 as Described>⟧.codec
        (with_field_once_or (codes "proxy") (codes "settings have one proxy") None
        ⟦<Option<String> as Described>⟧.codec
        (with_field_once_or (codes "plugins") (codes "settings have one list of plugins") None
        ⟦<Option<Vec<String>> as Described>⟧.codec
        (with_field_once_or (codes "greeting") (codes "settings have one greeting") None
        ⟦<Option<String> as Described>⟧.codec
        no_fields refl) refl) refl) refl) refl) refl) refl) refl) refl };
}

impl AsDescribed for Settings {
    ghost agrees = { as_described tt refl };
}

/// Why settings were rejected, and at which byte.
pub type Fault = ErrorAt<WholeError<DecodeError<Never>>>;

/// The settings that `input` is: one value and nothing else, read with 256 steps.
///
/// # Errors
///
/// - `Decode` of an error of `deserialize_fields`: the input begins with no settings. What the
///   error leaves begins at the byte
/// - `Trailing`: the input begins with settings. They end before the byte, and so many bytes follow
pub fn read_settings(alloc: Global, input: &[u8]) -> Result<Settings, Fault>
    ensures whole { FirstWhole ⟦<Settings as Typed>⟧.promise input.now (without_byte result) }
    ensures byte { IfErr result
        (StopsAt typed_error_of ⟦<Settings as Typed>⟧.promise.format.begins input.now) }
{
    from_slice_whole_at(alloc, input)
}

#[cfg(test)]
mod tests;
