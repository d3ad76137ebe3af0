//! A connection whose requests a traced shop answers.

ghost use Rattle.std.specs.Prelude.{◌≡◌, ◌++◌, ℕ, All, List, OnOk};
ghost use Rattle.std.specs.Io.KnownBytes.{Appends, Consumes};
ghost use Rattle.http_server.specs.Connection.{history};
ghost use Rattle.http_server.specs.Exchange.{Call, Calls};
ghost use Rattle.http_server.specs.History.{IsDone};
ghost use Rattle.otel_http.specs.Serving.{TracesRequest};
ghost use Rattle.otel_shop.specs.Serving.{ServesShop};
ghost use Rattle.otel_shop.specs.Statuses.{IsAnsweredCall};

use crate::shop::Shop;
use http_server::{Connection, Service, serve};
use opentelemetry_sdk::trace::HoldsSpans;
use otel_http::Traced;
use std::io;
use std::io::{Read, Write};

/// Serves the requests of a connection until it ends, and on `Ok` it has. What was read of it and written to it are the
/// reader's and the writer's bytes. Each request in turn was answered by the shop inside its span, and got the status of
/// its path.
pub fn serve_shop<B: Service, S: HoldsSpans, R: Read, W: Write>(
    connection: &mut Connection,
    shop: &mut Traced<Shop<B>, S>,
    reader: &mut R,
    writer: &mut W,
) -> io::Result<()>
    ensures done { OnOk result (IsDone (history connection.new)) }
    ensures read { (more : List ℕ) × Consumes (R.remaining reader.old) (R.remaining reader.new) more
        × ((history connection.new).received ≡ (history connection.old).received ++ more) }
    ensures written { (more : List ℕ) × Appends (W.contents writer.old) (W.contents writer.new) more
        × ((history connection.new).sent ≡ (history connection.old).sent ++ more) }
    ensures calls { Calls (TracesRequest S.HoldsSpans (ServesShop S.HoldsSpans B.answers)) shop.old shop.new
        (history connection.old).calls (history connection.new).calls }
    ensures answers { (calls : List Call)
        × ((history connection.new).calls ≡ (history connection.old).calls ++ calls) × All IsAnsweredCall calls }
{
    serve(connection, shop, reader, writer)
}
