//! The shop's routes, and the methods that it answers.

ghost use Rattle.std.specs.Prelude.{◌≡◌};
ghost use Rattle.otel_shop.specs.Routes.{is_read, route_at, route_text};

use http::Method;

/// A page of the shop.
#[derive(Clone, Copy, Debug, PartialEq, Eq)]
pub enum Route {
    /// What a customer buys, with its price, for which the backend is asked.
    Cart,
    /// The price.
    Price,
    /// Always fails.
    Broken,
    /// Takes its time.
    Slow,
}

impl Route {
    /// The route as its span says it.
    pub fn text(self) -> &'static str
        ensures { result.now ≡ route_text self }
    {
        match self {
            Route::Cart => "/cart",
            Route::Price => "/price",
            Route::Broken => "/broken",
            Route::Slow => "/slow",
        }
    }
}

/// The route at a path, if there is one.
pub fn route_at(path: &str) -> Option<Route>
    ensures { result ≡ route_at path.now }
{
    if path == "/cart" {
        Some(Route::Cart)
    } else if path == "/price" {
        Some(Route::Price)
    } else if path == "/broken" {
        Some(Route::Broken)
    } else if path == "/slow" {
        Some(Route::Slow)
    } else {
        None
    }
}

/// Whether a method only reads, as all that the shop answers.
pub fn is_read(method: &Method) -> bool
    ensures { result ≡ is_read method.now }
{
    let text = method.as_str();
    text == "GET" || text == "HEAD"
}
